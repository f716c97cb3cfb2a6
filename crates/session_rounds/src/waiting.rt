ghost use Rattle.std.specs.Prelude.{◌≡◌, ◌++◌, ◌∷◌, [], ◌||◌, cond, drop, filter, map, not, ℕ, Option, OnOk};
ghost use Rattle.std.specs.List.{list_any};
ghost use Rattle.session_model.specs.declared.phase.Phase.{Phase as APhase};
ghost use Rattle.session_model.specs.Waits as of;
ghost use Rattle.session_rounds.specs.Rounds.{first_wanted};

use crate::waits::{
    checkpoint_wait, disown, first_save, global_wait, is_only, is_operator, is_sender, lone_wait,
    shutdown_wait,
};
use owned_lists::NoMemory;
use round_agreement::Wanted;
use session_clients::is_bound;
use session_model::{Phase, Wait};
use sm_world::{Conn, Order};
use std::alloc::Global;
use std::marker::Model;
use xsmp_messages::XsmpMessage;

/// The rounds that wait for their turn, in order.
#[derive(Drop)]
pub struct WaitingRounds {
    waits: Vec<Wait>,
}

impl Model for WaitingRounds {
    ghost use Rattle.std.specs.Prelude.{List};
    ghost use Rattle.session_model.specs.declared.waits.Wait.{Wait as AWait};

    ghost Value = { List AWait };

    ghost view = { λ rounds. rounds.waits.items };
}

impl WaitingRounds {
    /// None waits.
    pub fn new(alloc: Global) -> WaitingRounds
        ensures { result ≡ [] }
    {
        WaitingRounds {
            waits: Vec::new(alloc),
        }
    }

    /// Those that wait.
    pub fn as_slice(&self) -> &[Wait]
        ensures { result.now ≡ self.now }
    {
        self.waits.as_slice()
    }

    /// What the first is for.
    pub fn first(&self) -> Option<Wanted>
        ensures { result ≡ first_wanted self.now }
    {
        match self.waits.first() {
            Some(wait) => Some(wait.wanted),
            None => None,
        }
    }

    /// The operator has to wait: a shutdown was agreed, or a round of the operator waits.
    pub fn is_busy(&self, is_ending: bool) -> bool
        ensures { result ≡ of.is_busy is_ending self.now }
    {
        is_ending || has_operator(&self.waits)
    }

    /// A round of the operator waits, unless the operator has to.
    fn add_operator(&mut self, wait: Wait, is_ending: bool) -> Result<(), NoMemory>
        ensures { OnOk result
            (self.new ≡ cond (of.is_busy is_ending self.old) self.old (self.old ++ wait ∷ [])) }
    {
        if !self.is_busy(is_ending) {
            self.waits.push(wait)?;
        }
        Ok(())
    }

    /// The operator asked for this, where a shutdown was agreed or not.
    pub fn order(&mut self, order: &Order, is_ending: bool) -> Result<(), NoMemory>
        ensures { OnOk result (self.new ≡ of.waits_ordered order.now is_ending self.old) }
    {
        match order {
            Order::Checkpoint => self.add_operator(checkpoint_wait(), is_ending),
            Order::Shutdown => self.add_operator(shutdown_wait(), is_ending),
            _ => Ok(()),
        }
    }

    /// The round of a client that has just registered waits, where it is new.
    pub fn add_newcomer(&mut self, conn: Conn, is_new: bool) -> Result<(), NoMemory>
        ensures { OnOk result
            (self.new ≡ cond is_new (self.old ++ of.first_save conn ∷ []) self.old) }
    {
        if is_new {
            self.waits.push(first_save(conn))?;
        }
        Ok(())
    }

    /// A sender's request takes the place of the one of its that waits, or goes last.
    fn add_request(&mut self, conn: Conn, request: Wait) -> Result<(), NoMemory>
        ensures { OnOk result (self.new ≡ of.with_request conn request self.old) }
    {
        if !replace(&mut self.waits, conn, request) {
            self.waits.push(request)?;
        }
        Ok(())
    }

    /// A client said this, and was in this phase before.
    pub fn hear(
        &mut self,
        conn: Conn,
        message: &XsmpMessage,
        phase: Option<Phase>,
    ) -> Result<(), NoMemory>
        ensures { OnOk result ((phases : ℕ → Option APhase) → phases conn ≡ phase →
            self.new ≡ of.waits_said conn message.now phases self.old) }
    {
        match message {
            XsmpMessage::SaveYourselfRequest {
                kind,
                shutdown,
                style,
                fast,
                global: true,
            } if is_bound(phase) => {
                self.add_request(conn, global_wait(conn, *kind, *shutdown, *style, *fast))
            }
            XsmpMessage::SaveYourselfRequest {
                kind,
                shutdown: false,
                style,
                fast,
                global: false,
            } if is_bound(phase) => {
                self.add_request(conn, lone_wait(conn, *kind, *style, *fast))
            }
            _ => Ok(()),
        }
    }

    /// The first goes.
    pub fn drop_first(&mut self)
        ensures { self.new ≡ drop 1 self.old }
    {
        if !self.waits.is_empty() {
            self.waits.remove(0);
        }
    }

    /// A client departed: the rounds for it alone are dropped, and its requests for all stay.
    pub fn leave(&mut self, conn: Conn)
        ensures { self.new ≡ of.waits_left conn self.old }
    {
        drop_lone(&mut self.waits, conn);
        disown_each(&mut self.waits, conn);
    }

    /// None waits any more where the session ends.
    pub fn end(&mut self, is_shutdown: bool)
        ensures { self.new ≡ cond is_shutdown [] self.old }
    {
        if is_shutdown {
            self.waits.clear();
        }
    }
}

fn has_operator(waits: &[Wait]) -> bool
    ensures { result ≡ list_any (λ wait. of.is_operator wait.owner) waits.now }
{
    waits.iter().any(|wait| is_operator(wait.owner))
}

fn disown_each(waits: &mut [Wait], conn: Conn)
    ensures { waits.new ≡ map (of.disowned conn) waits.old }
{
    for wait in waits {
        *wait = disown(conn, *wait);
    }
}

fn drop_lone(waits: &mut Vec<Wait>, conn: Conn)
    ensures { waits.new.items ≡ filter (λ wait. not (of.is_only conn wait.wanted.only))
        waits.old.items }
{
    waits.retain(|wait| !is_only(conn, wait.wanted.only));
}

/// Puts a sender's request in the place of the one of its that waits. False where there is none.
fn replace(waits: &mut [Wait], conn: Conn, request: Wait) -> bool
    ensures { cond result waits.new (waits.new ++ request ∷ [])
        ≡ of.with_request conn request waits.old }
{
    for wait in waits {
        if is_sender(conn, wait.owner) {
            *wait = request;
            return true;
        }
    }
    false
}
