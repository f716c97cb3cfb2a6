ghost use Rattle.std.specs.Prelude.{◌≡◌, ◌∷◌, [], List, codes, cond, ℕ, IfOk, OnOk, ◌++◌, None, Option, false, true};
ghost use Rattle.std.specs.List.{list_any};
ghost use Rattle.std.specs.Str.{bytes_eq};
ghost use Rattle.xsmp_properties.specs.Tables.{is_named, set_all};
ghost use Rattle.discard_ledger.specs.Discards.{discard_of};
ghost use Rattle.session_model.specs.declared.events.SessionEvent.TheVariants.{Said as HasSaid};
ghost use Rattle.session_model.specs.Errors as errors;
ghost use Rattle.session_model.specs.Moves.{Blamed, Outside};
ghost use Rattle.session_model.specs.Phases.{is_owing as owes, is_shutdown as is_a_shutdown, is_saving, may_interact};
ghost use Rattle.session_model.specs.Reading.{wanted_in as wanted};
ghost use Rattle.session_model.specs.Replies as of;
ghost use Rattle.session_model.specs.Tables.{is_full, is_same as is_same_command, stopped as stops, strays_with};
ghost use Rattle.session_clients.specs.Clients.{phase_in, table_in};
ghost use Rattle.session_state.specs.Session.{Session, reading_in, moved, moved_all, turns_said};
ghost use Rattle.manager_machine.specs.Answers.{moves_of};
ghost use Rattle.manager_machine.specs.Given.{names_discard};
ghost use Rattle.session_answers.specs.Arrivals.{arrival_of};
ghost use Rattle.session_model.specs.Replies.{has_place as belongs, placed};
ghost use Rattle.manager_machine.specs.Order.{InOrder};
ghost use Rattle.interact_queue.specs.Queue.{is_holder, is_in};
ghost use Rattle.session_model.specs.declared.phase.Phase.{Phase as APhase};

use crate::registrations::newcomer_said;
use crate::replies::Reply;
use crate::session_core::Core;
use checkpoint_records::{Book, same_command};
use discard_ledger::Ledger;
use ice_values::{Array8, Property, PropertyList};
use interact_queue::InteractQueue;
use owned_lists::{Command, NoMemory};
use round_agreement::Wanted;
use session_answers::{ArrivalView, bad_state, full_table, lone_shutdown};
use session_clients::{
    Clients, is_bound, is_dying, is_first_saving, is_interacting, is_owing, is_saving, is_shutdown,
    is_unregistered, may_interact,
};
use session_model::Phase;
use sm_world::Conn;
use std::alloc::Global;
use xsmp_messages::XsmpMessage;
use xsmp_properties::same_bytes;

impl Core {
    /// The answer to a message, with its number among those of its sender, and its frame.
    fn reply_to_message(&self, arrival: &ArrivalView<'_>) -> Result<Reply, NoMemory>
        ensures { IfOk result (λ reply. (s : Session) →
            moves_of s reply ≡ of.reply (reading_in self.now)
            (HasSaid arrival.now.conn arrival.now.message.now arrival.now.sequence
            arrival.now.frame.now)) }
    {
        match arrival.message {
            XsmpMessage::ConnectionClosed { .. } => Ok(Reply::Shut(
                arrival.conn,
                self.again(arrival.conn)?,
            )),
            XsmpMessage::Error(_) => Ok(Reply::Quiet),
            _ => self.reply_to_client(arrival),
        }
    }

    /// The answer to a message that doesn't end anything. A client that was told to die is heard
    /// no more.
    fn reply_to_client(&self, arrival: &ArrivalView<'_>) -> Result<Reply, NoMemory>
        ensures { IfOk result (λ reply. (s : Session) →
            moves_of s reply ≡ of.unless_dying (reading_in self.now) (arrival_of arrival.now)
            (phase_in arrival.now.conn self.now.clients.rows)) }
    {
        if is_dying(self.clients.phase(arrival.conn)) {
            return Ok(Reply::Quiet);
        }
        self.reply_by_phase(arrival)
    }

    /// The answer to a message of a client that wasn't told to die.
    fn reply_by_phase(&self, arrival: &ArrivalView<'_>) -> Result<Reply, NoMemory>
        ensures { IfOk result (λ reply. (s : Session) →
            moves_of s reply ≡ of.answered (reading_in self.now) (arrival_of arrival.now)
            arrival.now.message.now
            (phase_in arrival.now.conn self.now.clients.rows)) }
    {
        if !self.belongs(arrival) {
            let alloc = *self.acts.allocator();
            return Ok(refusal(alloc, arrival));
        }
        let reply = self.reply_in_place(arrival)?;
        Ok(reply)
    }

    /// Whether a message has its place, by the phase of its sender.
    fn belongs(&self, arrival: &ArrivalView<'_>) -> bool
        ensures { result ≡ belongs (wanted self.now.round) arrival.now.message.now
            (phase_in arrival.now.conn self.now.clients.rows) }
    {
        has_place(
            self.running.wanted(),
            arrival.message,
            self.clients.phase(arrival.conn),
        )
    }

    /// The answer to a message that has its place.
    fn reply_in_place(&self, arrival: &ArrivalView<'_>) -> Result<Reply, NoMemory>
        ensures { IfOk result (λ reply. (s : Session) →
            moves_of s reply ≡ placed (reading_in self.now) (arrival_of arrival.now)
            arrival.now.message.now
            (phase_in arrival.now.conn self.now.clients.rows)) }
    {
        match arrival.message {
            XsmpMessage::RegisterClient { previous } => {
                self.reply_to_registering(arrival, previous)
            }
            XsmpMessage::SetProperties { properties } => {
                self.reply_to_setting(arrival, properties)
            }
            XsmpMessage::GetProperties => Ok(Reply::Tell(
                arrival.conn,
                self.properties_of(arrival.conn)?,
            )),
            XsmpMessage::SaveYourselfRequest {
                shutdown,
                global,
                ..
            } => {
                let is_lone = *shutdown && !*global;
                self.reply_to_save_request(arrival, is_lone)
            }
            XsmpMessage::InteractDone { cancel: true } => { self.reply_to_cancelling(arrival) }
            _ => Ok(Reply::Quiet),
        }
    }

    /// The answer to a client that sets properties.
    fn reply_to_setting(
        &self,
        arrival: &ArrivalView<'_>,
        properties: &PropertyList,
    ) -> Result<Reply, NoMemory>
        ensures { IfOk result (λ reply. (s : Session) →
            moves_of s reply ≡ cond
            (is_full (set_all (table_in arrival.now.conn self.now.clients.rows) properties.now))
            (Blamed arrival.now.conn (errors.full_table (arrival_of arrival.now)) ∷ []) []) }
    {
        if self.clients.would_be_full(arrival.conn, properties)? {
            let error = full_table(*self.acts.allocator(), arrival)?;
            return Ok(Reply::Blame(arrival.conn, error));
        }
        Ok(Reply::Quiet)
    }

    /// What a client says of itself.
    fn properties_of(&self, conn: Conn) -> Result<PropertyList, NoMemory>
        ensures { IfOk result (λ list. list ≡ table_in conn self.now.clients.rows) }
    {
        match self.clients.table(conn) {
            Some(table) => table.list(),
            None => Ok(PropertyList::new(*self.acts.allocator())),
        }
    }

    /// The answer to a client that asks for a save, which can't be a shutdown of itself alone.
    fn reply_to_save_request(
        &self,
        arrival: &ArrivalView<'_>,
        is_lone: bool,
    ) -> Result<Reply, NoMemory>
        ensures { IfOk result (λ reply. (s : Session) →
            moves_of s reply ≡ cond is_lone (Blamed arrival.now.conn
            (errors.lone_shutdown (arrival_of arrival.now)) ∷ []) []) }
    {
        if is_lone {
            let error = lone_shutdown(*self.acts.allocator(), arrival)?;
            return Ok(Reply::Blame(arrival.conn, error));
        }
        Ok(Reply::Quiet)
    }

    /// The answer to a client whose user wants the shutdown cancelled.
    fn reply_to_cancelling(&self, arrival: &ArrivalView<'_>) -> Result<Reply, NoMemory>
        ensures { IfOk result (λ reply. (s : Session) →
            moves_of s reply ≡ cond (owes (phase_in arrival.now.conn self.now.clients.rows)) []
            (of.want_cancel (reading_in self.now) (arrival_of arrival.now)
            (is_a_shutdown (wanted self.now.round)))) }
    {
        if is_owing(self.clients.phase(arrival.conn)) {
            return Ok(Reply::Quiet);
        }
        if is_shutdown(self.running.wanted()) {
            return self.calling_off();
        }
        let alloc = *self.acts.allocator();
        Ok(refusal(alloc, arrival))
    }

    /// A client said this.
    pub(crate) fn answer_message(&mut self, arrival: &ArrivalView<'_>) -> Result<(), NoMemory>
        requires { InOrder self.old }
        ensures { OnOk result
            (self.new ≡ moved_all
            (Outside (HasSaid arrival.now.conn arrival.now.message.now arrival.now.sequence
            arrival.now.frame.now) ∷ of.reply (reading_in self.old)
            (HasSaid arrival.now.conn arrival.now.message.now arrival.now.sequence
            arrival.now.frame.now))
            self.old) }
    {
        let reply = self.reply_to_message(arrival)?;
        self.hear(arrival.conn, arrival.message)?;
        self.perform(reply)?;
        Ok(())
    }

    /// A client said this.
    fn hear(&mut self, conn: Conn, message: &XsmpMessage) -> Result<(), NoMemory>
        requires { InOrder self.old }
        ensures { OnOk result ((sequence : ℕ) (frame : List ℕ) →
            self.new ≡ moved (Outside (HasSaid conn message.now sequence frame)) self.old) }
    {
        let phase = self.clients.phase(conn);
        let wanted = self.running.wanted();
        let is_discard_named = names_discard(message);
        let before = discard_where(&self.clients, conn, is_discard_named)?;
        self.running.hear(conn, message, phase);
        hear_queue(&mut self.queue, conn, message, phase, wanted)?;
        self.waits.hear(conn, message, phase)?;
        self.newcomer = newcomer_said(conn, message, self.newcomer);
        self.clients.hear(conn, message, wanted)?;
        let now = discard_where(&self.clients, conn, is_discard_named)?;
        add_stray(&mut self.ledger, &self.book, stopped(before, &now))?;
        Ok(())
    }
}

/// Whether a message has its place, by the phase of its sender and by what the running round was
/// begun for.
fn has_place(wanted: Option<Wanted>, message: &XsmpMessage, phase: Option<Phase>) -> bool
    ensures { result ≡ belongs wanted message.now phase }
{
    match message {
        XsmpMessage::RegisterClient { .. } => is_unregistered(phase),
        XsmpMessage::SetProperties { .. } => is_bound(phase),
        XsmpMessage::DeleteProperties { .. } => is_bound(phase),
        XsmpMessage::GetProperties => is_bound(phase),
        XsmpMessage::SaveYourselfRequest { .. } => is_bound(phase),
        XsmpMessage::InteractRequest { dialog } => {
            is_owing(phase) || is_saving(phase) && may_interact(wanted, *dialog)
        }
        XsmpMessage::InteractDone { .. } => is_owing(phase) || is_interacting(phase),
        XsmpMessage::SaveYourselfDone { .. } => is_owing(phase) || is_saving(phase),
        XsmpMessage::SaveYourselfPhase2Request => is_owing(phase) || is_first_saving(phase),
        _ => false,
    }
}

/// The Error for a message that has no place here.
fn refusal(alloc: Global, arrival: &ArrivalView<'_>) -> Reply
    ensures { (s : Session) → moves_of s result ≡ of.refused (arrival_of arrival.now) }
{
    Reply::Blame(arrival.conn, bad_state(alloc, arrival))
}

/// A client asks for the token or gives it back, and was in this phase before.
fn hear_queue(
    queue: &mut InteractQueue,
    conn: Conn,
    message: &XsmpMessage,
    phase: Option<Phase>,
    wanted: Option<Wanted>,
) -> Result<(), NoMemory>
    requires not_waiting { is_saving phase ≡ true → is_in conn queue.old.waiting ≡ false }
    requires not_holding { is_saving phase ≡ true → is_holder conn queue.old.holder ≡ false }
    ensures { OnOk result ((phases : ℕ → Option APhase) → phases conn ≡ phase →
        record { waiting = queue.new.waiting; holder = queue.new.holder }
        ≡ turns_said conn message.now phases (λ dialog.
        may_interact wanted dialog)
        (record { waiting = queue.old.waiting; holder = queue.old.holder })) }
{
    match message {
        XsmpMessage::InteractRequest { dialog }
            if is_saving(phase) && may_interact(wanted, *dialog) => { ask(queue, conn) }
        XsmpMessage::InteractDone { cancel: false } if is_interacting(phase) => {
            queue.release();
            Ok(())
        }
        _ => Ok(()),
    }
}

/// A connection waits for the token.
fn ask(queue: &mut InteractQueue, conn: Conn) -> Result<(), NoMemory>
    requires not_waiting { is_in conn queue.old.waiting ≡ false }
    requires not_holding { is_holder conn queue.old.holder ≡ false }
    ensures waiting { OnOk result (queue.new.waiting ≡ queue.old.waiting ++ conn ∷ []) }
    ensures holder { OnOk result (queue.new.holder ≡ queue.old.holder) }
{
    queue.reserve(1)?;
    queue.ask(conn);
    Ok(())
}

pub(crate) fn is_discard(name: &[u8]) -> bool
    ensures { result ≡ bytes_eq (codes "DiscardCommand") name.now }
{
    same_bytes(b"DiscardCommand", name)
}

fn sets_discard(properties: &[Property]) -> bool
    ensures { result ≡ list_any (is_named (codes "DiscardCommand")) properties.now }
{
    properties
        .iter()
        .any(|property| is_discard(property.name.as_slice()))
}

fn deletes_discard(names: &[Array8]) -> bool
    ensures { result ≡ list_any (bytes_eq (codes "DiscardCommand")) names.now }
{
    names.iter().any(|name| is_discard(name.as_slice()))
}

/// Whether its sender sets its DiscardCommand by a message, or deletes it.
fn names_discard(message: &XsmpMessage) -> bool
    ensures { result ≡ names_discard message.now }
{
    match message {
        XsmpMessage::SetProperties { properties } => sets_discard(properties.as_slice()),
        XsmpMessage::DeleteProperties { names } => deletes_discard(names.as_slice()),
        _ => false,
    }
}

/// The DiscardCommand of a connection, where a message names it. None elsewhere, which takes no
/// memory.
pub(crate) fn discard_where(
    clients: &Clients,
    conn: Conn,
    is_named: bool,
) -> Result<Option<Command>, NoMemory>
    ensures { IfOk result (λ command.
        command ≡ cond is_named (discard_of (table_in conn clients.now.rows)) None) }
{
    if is_named {
        clients.discard(conn)
    } else {
        Ok(None)
    }
}

/// Notes a DiscardCommand that stopped standing, if one did. The ledger's pending commands are
/// those of the book.
pub(crate) fn add_stray(
    ledger: &mut Ledger,
    book: &Book,
    command: Option<Command>,
) -> Result<(), NoMemory>
    requires { ledger.old.pending ≡ book.now.pending }
    ensures strays { OnOk result (ledger.new.strays
        ≡ strays_with book.now command ledger.old.strays) }
    ensures pending { ledger.new.pending ≡ ledger.old.pending }
{
    match command {
        Some(command) => ledger.stray(command, book),
        None => Ok(()),
    }
}

fn is_same(command: &Command, other: &Option<Command>) -> bool
    ensures { result ≡ is_same_command command.now other.now }
{
    match other {
        Some(other) => same_command(command, other),
        None => false,
    }
}

/// The command that stood before and stands no longer.
pub(crate) fn stopped(before: Option<Command>, now: &Option<Command>) -> Option<Command>
    ensures { result ≡ stops before now.now }
{
    match before {
        Some(command) if !is_same(&command, now) => Some(command),
        Some(_) => None,
        None => None,
    }
}
