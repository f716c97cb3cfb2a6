ghost use Rattle.std.specs.Prelude.{◌≡◌, true, false, Some, OnOk, IfOk, filter, is_some, ◌∷◌, []};
ghost use Rattle.interact_queue.specs.Queue.{next_holder};
ghost use Rattle.round_agreement.specs.Agreement.{Agreement, conns_of, two_ready};
ghost use Rattle.session_model.specs.Moves.{Blamed, Gave, Unset, gave_each};
ghost use Rattle.session_model.specs.Rules.{wanting_two};
ghost use Rattle.session_clients.specs.Clients.{is_reply, phase_in};
ghost use Rattle.session_state.specs.Session.{moved, moved_all};
ghost use Rattle.manager_machine.specs.Given.{ends_save, is_for_members, is_of_rows, told, told_each};
ghost use Rattle.manager_machine.specs.Order.{InOrder, MatchNext, wants_second as wants_it};
ghost use Rattle.xsmp_messages.specs.declared.message.XsmpMessage.TheVariants.{Die as DieSaid, SaveYourselfPhase2 as SecondSaid, ShutdownCancelled as CancelledSaid};

use crate::session_core::Core;
use ice_values::ErrorBody;
use owned_lists::NoMemory;
use session_clients::Clients;
use session_model::{Act, Phase};
use sm_world::{Conn, ConnList};
use std::alloc::Global;
use xsmp_messages::XsmpMessage;

impl Core {
    /// Sends a message, which its receiver's row notes.
    fn tell(&mut self, conn: Conn, message: XsmpMessage) -> Result<(), NoMemory>
        requires { is_reply message ≡ false }
        ensures { OnOk result (self.new ≡ told conn message self.old) }
    {
        self.clients.give(conn, &message);
        self.act(Act::Say(conn, message))?;
        Ok(())
    }

    /// Sends a message that changes its receiver's row alone, if anything.
    pub(crate) fn say(&mut self, conn: Conn, message: XsmpMessage) -> Result<(), NoMemory>
        requires { is_of_rows message ≡ true }
        ensures { OnOk result (self.new ≡ moved (Gave conn message) self.old) }
    {
        self.tell(conn, message)?;
        Ok(())
    }

    /// Sends the same message, a SaveYourself or a SaveComplete, to each of these.
    pub(crate) fn say_each(&mut self, conns: &[Conn], message: &XsmpMessage) -> Result<(), NoMemory>
        requires { is_for_members message.now ≡ true }
        ensures { OnOk result (self.new ≡ moved_all (gave_each message.now conns.now) self.old) }
    {
        self.make_room(conns.len())?;
        for conn in conns {
            self.say(*conn, again(message))?;
        }
        Ok(())
    }

    /// Sends a message that ends a save, so that its receiver is out of the queue for the token.
    fn say_out(&mut self, conn: Conn, message: XsmpMessage) -> Result<(), NoMemory>
        requires { ends_save message ≡ true }
        ensures { OnOk result (self.new ≡ moved (Gave conn message) self.old) }
    {
        self.queue.leave(conn);
        self.tell(conn, message)?;
        Ok(())
    }

    /// Sends a ShutdownCancelled to each of these, which are out of the queue for the token then.
    pub(crate) fn cancel_each(&mut self, conns: &[Conn]) -> Result<(), NoMemory>
        ensures { OnOk result (self.new ≡ moved_all (gave_each CancelledSaid conns.now) self.old) }
    {
        for conn in conns {
            self.say_out(*conn, XsmpMessage::ShutdownCancelled)?;
        }
        Ok(())
    }

    /// Sends a Die to each of these, which are out of the queue for the token then.
    pub(crate) fn kill_each(&mut self, conns: &[Conn]) -> Result<(), NoMemory>
        ensures { OnOk result (self.new ≡ moved_all (gave_each DieSaid conns.now) self.old) }
    {
        for conn in conns {
            self.say_out(*conn, XsmpMessage::Die)?;
        }
        Ok(())
    }

    /// Sends an Error.
    pub(crate) fn blame(&mut self, conn: Conn, error: ErrorBody) -> Result<(), NoMemory>
        ensures { OnOk result (self.new ≡ moved (Blamed conn error) self.old) }
    {
        self.act(Act::Blame(conn, error))?;
        Ok(())
    }

    /// Ends XSMP on a connection, which stays.
    fn unset(&mut self, conn: Conn) -> Result<(), NoMemory>
        ensures { OnOk result (self.new ≡ moved (Unset conn) self.old) }
    {
        self.clients.unset(conn);
        self.act(Act::Unset(conn))?;
        Ok(())
    }

    /// An Error is sent, and XSMP ends on the connection.
    pub(crate) fn turn_away(&mut self, conn: Conn, error: ErrorBody) -> Result<(), NoMemory>
        ensures { OnOk result
            (self.new ≡ moved_all (Blamed conn error ∷ Unset conn ∷ []) self.old) }
    {
        self.blame(conn, error)?;
        self.unset(conn)?;
        Ok(())
    }

    /// Gives the token to the first that waits for it, by an Interact. True where there is one and
    /// nobody has the token; else nothing is done.
    pub(crate) fn hold(&mut self) -> Result<bool, NoMemory>
        requires { InOrder self.old }
        ensures { IfOk result (λ given.
            MatchNext (next_holder (is_some self.old.turns.holder) self.old.turns.waiting) given
            self.old self.new) }
    {
        let Some(conn) = self.queue.grant() else {
            return Ok(false);
        };
        self.tell(conn, XsmpMessage::Interact)?;
        Ok(true)
    }

    /// Sends SaveYourselfPhase2 to each member that wants the second phase, where that can begin.
    pub(crate) fn begin_second(&mut self) -> Result<(), NoMemory>
        requires { InOrder self.old }
        ensures { OnOk result ((round : Agreement) → self.old.round ≡ Some round →
            two_ready round.members ≡ true → self.new
            ≡ moved_all (gave_each SecondSaid (wanting_two round.members)) self.old) }
    {
        let wanting = self.wanting_second()?;
        if !self.running.start_second() {
            return Ok(());
        }
        self.tell_second(wanting.as_slice())?;
        Ok(())
    }

    /// The members of the running round whose phase says that they want the second phase.
    fn wanting_second(&self) -> Result<ConnList, NoMemory>
        ensures { IfOk result (λ conns. (round : Agreement) → self.now.round ≡ Some round →
            conns ≡ filter (λ c. wants_it (phase_in c self.now.clients.rows))
            (conns_of round.members)) }
    {
        let alloc = *self.acts.allocator();
        match self.running.round() {
            Some(round) => wanting_among(alloc, &self.clients, round.members()),
            None => Ok(ConnList::new(alloc)),
        }
    }

    /// Sends SaveYourselfPhase2 to each of these, which their rows note.
    fn tell_second(&mut self, conns: &[Conn]) -> Result<(), NoMemory>
        ensures { OnOk result (self.new ≡ told_each SecondSaid conns.now self.old) }
    {
        self.make_room(conns.len())?;
        for conn in conns {
            self.tell(*conn, XsmpMessage::SaveYourselfPhase2)?;
        }
        Ok(())
    }
}

/// A second message like this one, which holds no memory.
pub(crate) fn again(message: &XsmpMessage) -> XsmpMessage
    requires { is_for_members message.now ≡ true }
    ensures { result ≡ message.now }
{
    match message {
        XsmpMessage::SaveYourself {
            kind,
            shutdown,
            style,
            fast,
        } => XsmpMessage::SaveYourself {
            kind: *kind,
            shutdown: *shutdown,
            style: *style,
            fast: *fast,
        },
        _ => XsmpMessage::SaveComplete,
    }
}

/// Whether a client waits for the second phase of its save.
fn wants_second(phase: Option<Phase>) -> bool
    ensures { result ≡ wants_it phase }
{
    matches!(phase, Some(Phase::WantsTwo))
}

/// Those of these connections whose clients wait for the second phase, in their order.
fn wanting_among(alloc: Global, clients: &Clients, conns: &[Conn]) -> Result<ConnList, NoMemory>
    ensures { IfOk result (λ wanting.
        wanting ≡ filter (λ c. wants_it (phase_in c clients.now.rows)) conns.now) }
{
    let mut wanting = ConnList::new(alloc);
    for conn in conns {
        if wants_second(clients.phase(*conn)) {
            wanting.push(*conn)?;
        }
    }
    Ok(wanting)
}
