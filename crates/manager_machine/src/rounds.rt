ghost use Rattle.std.specs.Prelude.{◌≡◌, ◌&&◌, true, IfOk, OnOk, ◌||◌, Option};
ghost use Rattle.round_agreement.specs.Agreement.{are_distinct, is_nil, conns_of};
ghost use Rattle.session_model.specs.Rules.{begin as begin_moves, idle_rule, is_free as may_begin, members_for as members, round_rule, rule, save_yourself as save_message};
ghost use Rattle.session_clients.specs.Clients.{conns_in};
ghost use Rattle.session_state.specs.Session.{finished_in, moved_all, reading_in, settled_in, moved, Session};
ghost use Rattle.manager_machine.specs.Given.{is_of_rows};
ghost use Rattle.manager_machine.specs.Order.{InOrder, SettlesInOrder};
ghost use Rattle.session_rounds.specs.Rounds.{progress_of as progress_in};
ghost use Rattle.manager_machine.specs.Settling.{WentOn, next_wanted as next_wait};
ghost use Rattle.session_model.specs.Moves.{Agreed as IsAgreed, Began as HasBegun, Cancelled as IsCancelled, Over as IsOver};
ghost use Rattle.session_model.specs.Errors as errors;
ghost use Rattle.session_model.specs.Phases.{is_owing as owes, is_shutdown as is_a_shutdown};
ghost use Rattle.session_model.specs.Reading.{wanted_in as wanted};
ghost use Rattle.session_model.specs.Replies as of;
ghost use Rattle.manager_machine.specs.Answers.{moves_of, call_off_moves};

use crate::replies::Reply;
use crate::session_core::Core;
use owned_lists::{Duplicate, NoMemory};
use round_agreement::{Round, Wanted};
use session_clients::is_shutdown;
use session_rounds::Progress;
use sm_world::{Conn, ConnList};
use std::alloc::Global;
use xsmp_messages::XsmpMessage;

impl Core {
    /// Does what the rules say until none holds.
    pub(crate) fn settle(&mut self) -> Result<(), NoMemory>
        requires { SettlesInOrder self.old }
        ensures { OnOk result (self.new ≡ settled_in self.old) }
    {
        let limit = 4 * self.waits.as_slice().len() + 4;
        for _rule in 0..limit {
            if !self.settle_once()? {
                return Ok(());
            }
        }
        Ok(())
    }

    /// Does what the first rule says that holds. False where none does.
    fn settle_once(&mut self) -> Result<bool, NoMemory>
        requires { InOrder self.old }
        ensures { IfOk result (λ went. WentOn (rule (reading_in self.old)) went self.old self.new) }
    {
        if self.hold()? {
            return Ok(true);
        }
        self.go_on()
    }

    fn progress(&self) -> Progress
        ensures { result ≡ progress_in self.now.round }
    {
        self.running.progress()
    }

    /// The rounds go on. False where they can't.
    fn go_on(&mut self) -> Result<bool, NoMemory>
        requires { InOrder self.old }
        ensures { IfOk result (λ went.
            WentOn (round_rule (reading_in self.old) self.old.round) went self.old self.new) }
    {
        match self.progress() {
            Progress::Idle => self.begin_next(),
            Progress::SecondPhase => {
                self.begin_second()?;
                Ok(true)
            }
            Progress::Agreement => {
                self.agreement()?;
                Ok(true)
            }
            Progress::Deserted => {
                self.end_round()?;
                Ok(true)
            }
            Progress::Saving => Ok(false),
        }
    }

    /// The first round that waits begins, where nobody owes an answer and no shutdown was agreed.
    /// False where none begins.
    fn begin_next(&mut self) -> Result<bool, NoMemory>
        requires { are_distinct self.old.clients.registered ≡ true }
        ensures { IfOk result (λ went.
            WentOn (idle_rule (may_begin (reading_in self.old)) (reading_in self.old)) went self.old
            self.new) }
    {
        let Some(wanted) = self.next_wanted() else {
            return Ok(false);
        };
        self.begin_wanted(wanted)?;
        Ok(true)
    }

    /// What the round is for that begins now, where one may begin and one waits.
    fn next_wanted(&self) -> Option<Wanted>
        ensures { result ≡ next_wait (reading_in self.now) }
    {
        if !self.is_free() {
            return None;
        }
        self.waits.first()
    }

    /// Whether a round may begin: no shutdown was agreed, and nobody owes an answer.
    fn is_free(&self) -> bool
        ensures { result ≡ may_begin (reading_in self.now) }
    {
        !self.is_ending && !self.clients.is_anyone_owing()
    }

    /// A round begins for this, and its members are asked to save.
    fn begin_wanted(&mut self, wanted: Wanted) -> Result<(), NoMemory>
        requires { are_distinct self.old.clients.registered ≡ true }
        ensures { OnOk result
            (self.new ≡ moved_all
            (begin_moves (members wanted.only self.old.clients.registered) wanted) self.old) }
    {
        let alloc = *self.acts.allocator();
        let conns = members_for(alloc, wanted.only, self.clients.registered())?;
        let told = conns.copy()?;
        self.begin(conns, wanted)?;
        self.say_each(told.as_slice(), &save_yourself(&wanted))?;
        Ok(())
    }

    /// A round begins with these members, and the first that waits goes.
    fn begin(&mut self, conns: ConnList, wanted: Wanted) -> Result<(), NoMemory>
        requires { are_distinct conns ≡ true }
        ensures { OnOk result (self.new ≡ moved (HasBegun conns wanted) self.old) }
    {
        self.running.begin(*self.acts.allocator(), conns, wanted)?;
        self.waits.drop_first();
        Ok(())
    }

    /// The round was left by all its members.
    fn end_round(&mut self) -> Result<(), NoMemory>
        ensures { OnOk result (self.new ≡ moved IsOver self.old) }
    {
        self.running.end();
        Ok(())
    }

    /// The members of the round agreed.
    pub(crate) fn agree(&mut self) -> Result<(), NoMemory>
        ensures { OnOk result (self.new ≡ moved IsAgreed self.old) }
    {
        let wanted = self.running.wanted();
        self.running.agree();
        self.waits.end(is_shutdown(wanted));
        self.is_ending = ends_with(self.is_ending, wanted);
        Ok(())
    }

    /// The round is called off.
    fn call_off(&mut self) -> Result<(), NoMemory>
        ensures { OnOk result (self.new ≡ moved IsCancelled self.old) }
    {
        self.running.end();
        Ok(())
    }

    /// The running round is called off, where there is one.
    pub(crate) fn calling_off(&self) -> Result<Reply, NoMemory>
        ensures { IfOk result (λ reply. (s : Session) →
            moves_of s reply ≡ of.called_off self.now.round) }
    {
        match self.running.round() {
            Some(round) => Ok(Reply::CallOff(members_of(*self.acts.allocator(), round)?)),
            None => Ok(Reply::Quiet),
        }
    }

    /// The running round is called off, and these are told so.
    pub(crate) fn call_off_for(&mut self, conns: &ConnList) -> Result<(), NoMemory>
        ensures { OnOk result (self.new ≡ moved_all (call_off_moves conns.now) self.old) }
    {
        self.call_off()?;
        self.cancel_each(conns.as_slice())?;
        Ok(())
    }

    /// Whether the run is over: a shutdown was agreed, and nobody is live.
    fn is_over(&self) -> bool
        ensures { result ≡ (self.now.is_ending && is_nil (conns_in self.now.clients.rows)) }
    {
        self.is_ending && self.clients.live_count() == 0
    }

    /// Ends the run where it is over.
    pub(crate) fn finish_if_over(&mut self) -> Result<(), NoMemory>
        ensures { OnOk result (self.new ≡ finished_in self.old) }
    {
        if self.is_over() {
            self.finish()?;
        }
        Ok(())
    }
}

/// Whether a shutdown was agreed, after a round that was begun for this was.
fn ends_with(is_ending: bool, wanted: Option<Wanted>) -> bool
    ensures { result ≡ (is_ending || is_a_shutdown wanted) }
{
    is_ending || is_shutdown(wanted)
}

/// The SaveYourself with which a round begins.
fn save_yourself(wanted: &Wanted) -> XsmpMessage
    ensures message { result ≡ save_message wanted.now }
    ensures of_rows { is_of_rows result ≡ true }
{
    XsmpMessage::SaveYourself {
        kind: wanted.kind,
        shutdown: wanted.shutdown,
        style: wanted.style,
        fast: wanted.fast,
    }
}

/// The members of a round that begins: the one client, or all that are registered.
fn members_for(alloc: Global, only: Option<Conn>, conns: &[Conn]) -> Result<ConnList, NoMemory>
    ensures { IfOk result (λ list. list ≡ members only conns.now) }
{
    match only {
        Some(conn) => copy_conns(alloc, &[conn]),
        None => copy_conns(alloc, conns),
    }
}

/// The members of a round.
pub(crate) fn members_of(alloc: Global, round: &Round) -> Result<ConnList, NoMemory>
    ensures { IfOk result (λ conns. conns ≡ conns_of round.now.members) }
{
    copy_conns(alloc, round.members())
}

/// The same connections in memory of their own.
pub(crate) fn copy_conns(alloc: Global, conns: &[Conn]) -> Result<ConnList, NoMemory>
    ensures { IfOk result (λ list. list ≡ conns.now) }
{
    Ok(ConnList::from_vec(Vec::from_slice(alloc, conns)?))
}
