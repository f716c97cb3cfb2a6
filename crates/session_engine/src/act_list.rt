ghost use Rattle.std.specs.Prelude.{◌≡◌, [], ◌∷◌, ◌++◌, IsTrue, OnOk};
ghost use Rattle.std.specs.List.{AllByRecursion};
ghost use Rattle.manager_machine.specs.Keeper.{AreFit, IsFit};
ghost use Rattle.session_engine.specs.Acts.{CanBeDone, acts_for, acts_for_all, has_finish, is_finish};

use crate::acts::Act;
use manager_machine::{Act as SessionAct, Acts};
use owned_lists::{ListOf, NoMemory};
use protocol_messages::Message;
use sm_world::Conn;
use std::alloc::Global;
use std::collections::VecDeque;
use std::marker::Model;
use std::mem;
use xsmp_messages::XsmpMessage;

/// What is to be done, in its order. Each message in it has a spelling that is not too long.
#[derive(Drop)]
pub struct ActList {
    /// What is done first.
    said: Vec<Act>,
    /// What the session did, which is done behind that. It stays as the session gave it.
    did: Acts,
}

impl Model for ActList {
    ghost use Rattle.std.specs.Prelude.{List, ◌++◌};
    ghost use Rattle.std.specs.List.{AllByRecursion};
    ghost use Rattle.manager_machine.specs.Keeper.{AreFit};
    ghost use Rattle.session_engine.specs.Acts.{CanBeDone, acts_for_all};
    ghost use Rattle.session_engine.specs.declared.acts.Act.{Act};

    ghost Value = { List Act };

    ghost view = { λ list. list.said.items ++ acts_for_all list.did };

    ghost invariant = { λ list. AllByRecursion CanBeDone list.said.items × AreFit list.did };
}

/// Puts an act behind others.
fn put(acts: &mut Vec<Act>, act: Act) -> Result<(), NoMemory>
    requires can { AllByRecursion CanBeDone acts.old.items }
    requires fit { CanBeDone act }
    ensures items { OnOk result (acts.new.items ≡ acts.old.items ++ act ∷ []) }
    ensures can { AllByRecursion CanBeDone acts.new.items }
{
    acts.push(act)?;
    Ok(())
}

/// Puts an act of the session behind others, if it is anything to the outside.
fn put_one(said: &mut Vec<Act>, act: SessionAct) -> Result<(), NoMemory>
    requires can { AllByRecursion CanBeDone said.old.items }
    requires fit { IsFit act }
    ensures items { OnOk result (said.new.items ≡ said.old.items ++ acts_for act) }
    ensures can { AllByRecursion CanBeDone said.new.items }
{
    match act {
        SessionAct::Say(conn, message) => put(said, Act::Say(conn, Message::Xsmp(message))),
        SessionAct::Blame(conn, error) => {
            let message = Message::Xsmp(XsmpMessage::Error(error));
            put(said, Act::Say(conn, message))
        }
        SessionAct::Unset(_conn) => Ok(()),
        SessionAct::Shut(conn) => put(said, Act::Shut(conn)),
        SessionAct::Start(reason, command) => put(said, Act::Start(reason, command)),
        SessionAct::Commit(book) => put(said, Act::Commit(book)),
        SessionAct::Print(text) => put(said, Act::Print(text)),
        SessionAct::Finish => put(said, Act::Finish),
    }
}

/// Puts acts of the session behind others.
fn put_behind(said: &mut Vec<Act>, did: Acts) -> Result<(), NoMemory>
    requires can { AllByRecursion CanBeDone said.old.items }
    requires fit { AreFit did }
    ensures items { OnOk result (said.new.items ≡ said.old.items ++ acts_for_all did) }
    ensures can { AllByRecursion CanBeDone said.new.items }
{
    let mut left = VecDeque::from(did.into_vec());
    while let Some(act) = left.pop_front() {
        put_one(said, act)?;
    }
    Ok(())
}

/// Whether an act ends the run.
fn ends(act: &Act) -> bool
    ensures { result ≡ is_finish act.now }
{
    match act {
        Act::Say(_, _) => false,
        Act::Shut(_) => false,
        Act::Start(_reason, _command) => false,
        Act::Commit(_) => false,
        Act::Print(_) => false,
        Act::Finish => true,
    }
}

/// Whether one of these acts ends the run.
fn one_ends(acts: &[Act]) -> bool
    ensures { result ≡ has_finish acts.now }
{
    for act in acts {
        if ends(act) {
            return true;
        }
    }
    false
}

/// Whether an act of the session ends the run.
fn did_end(act: &SessionAct) -> bool
    ensures { result ≡ has_finish (acts_for act.now) }
{
    match act {
        SessionAct::Say(_, _) => false,
        SessionAct::Blame(_, _) => false,
        SessionAct::Unset(_) => false,
        SessionAct::Shut(_) => false,
        SessionAct::Start(_reason, _command) => false,
        SessionAct::Commit(_) => false,
        SessionAct::Print(_) => false,
        SessionAct::Finish => true,
    }
}

/// Whether one of these acts of the session ends the run.
fn one_did_end(acts: &[SessionAct]) -> bool
    ensures { result ≡ has_finish (acts_for_all acts.now) }
{
    for act in acts {
        if did_end(act) {
            return true;
        }
    }
    false
}

impl ActList {
    ghost use Rattle.session_engine.specs.Acts.{says};
    ghost use Rattle.session_engine.specs.Messages.{CanBeSaid};
    ghost use Rattle.session_engine.specs.declared.acts.Act.TheVariants.{Shut as Shuts};

    /// Nothing; this takes no memory.
    pub fn new(alloc: Global) -> ActList
        ensures { result ≡ [] }
    {
        ActList {
            said: Vec::new(alloc),
            did: ListOf::new(alloc),
        }
    }

    /// Gives all acts away, and their memory with them.
    pub fn take(&mut self) -> ActList
        ensures acts { result ≡ self.old }
        ensures rest { self.new ≡ [] }
    {
        let none = ActList::new(*self.said.allocator());
        mem::replace(self, none)
    }

    /// What is done first, and what the session did, which is done behind that.
    pub fn into_queues(self) -> (VecDeque<Act>, VecDeque<SessionAct>)
        ensures is { result.0.items ++ acts_for_all result.1.items ≡ self }
        ensures can { AllByRecursion CanBeDone result.0.items }
        ensures fit { AreFit result.1.items }
    {
        let ActList { said, did } = self;
        (VecDeque::from(said), VecDeque::from(did.into_vec()))
    }

    /// Drops all acts.
    pub fn clear(&mut self)
        ensures { self.new ≡ [] }
    {
        self.said.clear();
        self.did = ListOf::new(*self.said.allocator());
    }

    pub fn push(&mut self, act: Act) -> Result<(), NoMemory>
        requires { CanBeDone act }
        ensures { OnOk result (self.new ≡ self.old ++ act ∷ []) }
    {
        if !self.did.as_slice().is_empty() {
            let did = mem::replace(&mut self.did, ListOf::new(*self.said.allocator()));
            put_behind(&mut self.said, did)?;
        }
        self.said.push(act)?;
        Ok(())
    }

    /// Adds what the session did.
    pub fn follow(&mut self, acts: Acts) -> Result<(), NoMemory>
        requires { AreFit acts }
        ensures { OnOk result (self.new ≡ self.old ++ acts_for_all acts) }
    {
        let did = mem::replace(&mut self.did, acts);
        if did.as_slice().is_empty() {
            return Ok(());
        }
        put_behind(&mut self.said, did)
    }

    /// Adds that a message is sent, if there is one.
    pub fn say(&mut self, to: Conn, message: Option<Message>) -> Result<(), NoMemory>
        requires { CanBeSaid message }
        ensures { OnOk result (self.new ≡ self.old ++ says to message) }
    {
        match message {
            Some(message) => self.push(Act::Say(to, message)),
            None => Ok(()),
        }
    }

    /// Adds that a last message is sent, if there is one, and that the connection is closed.
    pub fn close(&mut self, to: Conn, message: Option<Message>) -> Result<(), NoMemory>
        requires { CanBeSaid message }
        ensures { OnOk result (self.new ≡ self.old ++ (says to message ++ Shuts to ∷ [])) }
    {
        self.say(to, message)?;
        self.push(Act::Shut(to))
    }

    /// Whether nothing is to be done, where that is told at a glance.
    pub fn is_empty(&self) -> bool
        ensures { IsTrue result → self.now ≡ [] }
    {
        self.said.is_empty() && self.did.as_slice().is_empty()
    }

    /// Whether one of these acts ends the run.
    pub fn end(&self) -> bool
        ensures { result ≡ has_finish self.now }
    {
        one_ends(self.said.as_slice()) || one_did_end(self.did.as_slice())
    }
}
