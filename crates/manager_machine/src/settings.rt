ghost use Rattle.std.specs.Prelude.{◌≡◌, ◌∷◌, [], List, codes, ℕ, IfOk, OnOk};
ghost use Rattle.std.specs.List.{list_any};
ghost use Rattle.ice_values.specs.Walks.{walk_left};
ghost use Rattle.xsmp_properties.specs.Tables.{is_named};
ghost use Rattle.xsmp_messages.specs.declared.message.XsmpMessage.TheVariants.{SetProperties};
ghost use Rattle.session_model.specs.declared.events.SessionEvent.TheVariants.{Said as HasSaid};
ghost use Rattle.session_model.specs.Errors as errors;
ghost use Rattle.session_model.specs.Moves.{Outside};
ghost use Rattle.session_model.specs.Replies as of;
ghost use Rattle.session_clients.specs.Clients.{phase_in};
ghost use Rattle.session_state.specs.Session.{Session, reading_in, moved, moved_all};
ghost use Rattle.manager_machine.specs.Answers.{moves_of};
ghost use Rattle.manager_machine.specs.Heard.{message_of};
ghost use Rattle.manager_machine.specs.Settings.{WalksSet, arrived, set_by, setting_event};

use crate::messages::{add_stray, discard_where, is_discard, stopped};
use crate::replies::Reply;
use crate::session_core::Core;
use ice_values::{ErrorBody, PropertyList, PropertyWalk};
use owned_lists::NoMemory;
use session_answers::{ArrivalView, bad_state, full_table};
use session_clients::{is_bound, is_dying};
use sm_world::Conn;
use std::alloc::Global;
use xsmp_messages::{XsmpMessage, XsmpView};

/// The minor opcode of a SetProperties (XSMP, chapter 7).
const SET_PROPERTIES_MINOR: u8 = 12;

/// A SetProperties of a client that arrived, where it lies.
#[derive(Clone, Copy)]
pub(crate) struct Setting<'a> {
    pub(crate) conn: Conn,
    /// The properties that are set.
    pub(crate) walk: PropertyWalk<'a>,
    /// Its number among all that came on the connection, from 1 on.
    pub(crate) sequence: u32,
    /// The whole frame.
    pub(crate) frame: &'a [u8],
}

/// The properties that a message sets, where they lie. None for every message but a SetProperties.
/// This takes no memory.
pub(crate) fn settings_in<'a>(view: &XsmpView<'a>) -> Option<PropertyWalk<'a>>
    ensures { WalksSet (message_of view.now) result }
{
    let minor = view.bytes()[1];
    if minor != SET_PROPERTIES_MINOR {
        return None;
    }
    view.properties()
}

/// A SetProperties without properties, which stands in for another where only the kind of a
/// message counts. This takes no memory.
fn stand_in(alloc: Global) -> XsmpMessage
    ensures { result ≡ SetProperties [] }
{
    XsmpMessage::SetProperties {
        properties: PropertyList::new(alloc),
    }
}

/// The Error for a SetProperties that has no place in the phase of its sender.
fn misplaced(alloc: Global, setting: &Setting<'_>) -> ErrorBody
    ensures { result ≡ errors.bad_state (arrived setting.now) }
{
    let message = stand_in(alloc);
    bad_state(
        alloc,
        &ArrivalView {
            conn: setting.conn,
            message: &message,
            sequence: setting.sequence,
            frame: setting.frame,
        },
    )
}

/// The Error for properties that don't fit into the table of their client.
fn overfull(alloc: Global, setting: &Setting<'_>) -> Result<ErrorBody, NoMemory>
    ensures { IfOk result (λ error. error ≡ errors.full_table (arrived setting.now)) }
{
    let message = stand_in(alloc);
    full_table(
        alloc,
        &ArrivalView {
            conn: setting.conn,
            message: &message,
            sequence: setting.sequence,
            frame: setting.frame,
        },
    )
}

/// Whether a list of properties, where it lies, has a DiscardCommand.
fn sets_discard(walk: PropertyWalk<'_>) -> bool
    ensures { result ≡ list_any (is_named (codes "DiscardCommand")) (walk_left walk.entry) }
{
    let mut left = walk;
    while let Some(view) = left.next() {
        if is_discard(view.name) {
            return true;
        }
    }
    false
}

impl Core {
    /// The answer to a SetProperties. A client that was told to die is heard no more.
    fn reply_to_set(&self, setting: &Setting<'_>) -> Result<Reply, NoMemory>
        ensures { IfOk result (λ reply. (s : Session) →
            moves_of s reply ≡ of.reply (reading_in self.now) (setting_event setting.now)) }
    {
        if is_dying(self.clients.phase(setting.conn)) {
            return Ok(Reply::Quiet);
        }
        self.reply_to_set_by_phase(setting)
    }

    /// The answer to a SetProperties of a client that wasn't told to die.
    fn reply_to_set_by_phase(&self, setting: &Setting<'_>) -> Result<Reply, NoMemory>
        ensures { IfOk result (λ reply. (s : Session) →
            moves_of s reply ≡ of.answered (reading_in self.now) (arrived setting.now)
            (set_by setting.now) (phase_in setting.now.conn self.now.clients.rows)) }
    {
        if !is_bound(self.clients.phase(setting.conn)) {
            let alloc = *self.acts.allocator();
            return Ok(Reply::Blame(setting.conn, misplaced(alloc, setting)));
        }
        let reply = self.reply_to_set_by_room(setting)?;
        Ok(reply)
    }

    /// The answer to a SetProperties that has its place.
    fn reply_to_set_by_room(&self, setting: &Setting<'_>) -> Result<Reply, NoMemory>
        ensures { IfOk result (λ reply. (s : Session) →
            moves_of s reply ≡ of.placed (reading_in self.now) (arrived setting.now)
            (set_by setting.now) (phase_in setting.now.conn self.now.clients.rows)) }
    {
        if self.clients.would_be_full_of(setting.conn, setting.walk)? {
            let error = overfull(*self.acts.allocator(), setting)?;
            return Ok(Reply::Blame(setting.conn, error));
        }
        Ok(Reply::Quiet)
    }

    /// A client set these properties.
    pub(crate) fn answer_set(&mut self, setting: &Setting<'_>) -> Result<(), NoMemory>
        ensures { OnOk result
            (self.new ≡ moved_all
            (Outside (setting_event setting.now) ∷ of.reply (reading_in self.old)
            (setting_event setting.now))
            self.old) }
    {
        let reply = self.reply_to_set(setting)?;
        self.hear_set(setting.conn, setting.walk)?;
        self.perform(reply)?;
        Ok(())
    }

    /// A client set these properties. Nothing but its row and the strays depends on them.
    fn hear_set(&mut self, conn: Conn, walk: PropertyWalk<'_>) -> Result<(), NoMemory>
        ensures { OnOk result ((sequence : ℕ) (frame : List ℕ) →
            self.new ≡ moved
            (Outside (HasSaid conn (SetProperties (walk_left walk.entry)) sequence frame))
            self.old) }
    {
        let is_discard_named = sets_discard(walk);
        let before = discard_where(&self.clients, conn, is_discard_named)?;
        self.clients.set(conn, walk)?;
        let now = discard_where(&self.clients, conn, is_discard_named)?;
        add_stray(&mut self.ledger, &self.book, stopped(before, &now))?;
        Ok(())
    }
}
