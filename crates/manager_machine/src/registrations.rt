ghost use Rattle.std.specs.Prelude.{◌≡◌, IfOk, ◌+◌, ◌++◌, ◌∷◌, [], cond, false, filter, not, OnOk};
ghost use Rattle.session_answers.specs.Arrivals.{arrival_of};
ghost use Rattle.session_model.specs.Replies as of;
ghost use Rattle.session_state.specs.Session.{Session, reading_in, moved};
ghost use Rattle.manager_machine.specs.Answers.{moves_of};
ghost use Rattle.std.specs.Str.{bytes_eq};
ghost use Rattle.xsmp_messages.specs.declared.message.XsmpMessage.TheVariants.{RegisterClientReply as ReplySaid};
ghost use Rattle.session_model.specs.Moves.{Gave};
ghost use Rattle.session_model.specs.Tables.{first_table};
ghost use Rattle.session_model.specs.Waits.{first_save, is_only};
ghost use Rattle.session_model.specs.Readings as readings;
ghost use Rattle.session_clients.specs.Clients.{held_after};

use crate::replies::Reply;
use crate::session_core::Core;
use ice_values::Array8;
use owned_lists::{Duplicate, NoMemory};
use session_answers::{ArrivalView, bad_id, client_id, no_room};
use session_clients::{first_table, is_recorded};
use session_model::Act;
use session_rounds::is_only;
use sm_world::Conn;
use xsmp_messages::XsmpMessage;

/// How many IDs may be known.
const ID_LIMIT: usize = 128;

impl Core {
    /// The answer to a client that registers, by the ID that it had before.
    pub(crate) fn reply_to_registering(
        &self,
        arrival: &ArrivalView<'_>,
        previous: &Array8,
    ) -> Result<Reply, NoMemory>
        ensures { IfOk result (λ reply. (s : Session) →
            moves_of s reply ≡ of.register (reading_in self.now) (arrival_of arrival.now)
            previous.now) }
    {
        if previous.as_slice().is_empty() {
            self.reply_to_newcomer(arrival)
        } else {
            self.reply_to_returner(arrival, previous)
        }
    }

    /// The answer to a client that is new.
    fn reply_to_newcomer(&self, arrival: &ArrivalView<'_>) -> Result<Reply, NoMemory>
        ensures { IfOk result (λ reply. (s : Session) →
            moves_of s reply ≡ of.enter (reading_in self.now) (arrival_of arrival.now)) }
    {
        let alloc = *self.acts.allocator();
        if self.has_no_room() {
            let error = no_room(alloc, arrival)?;
            return Ok(Reply::TurnAway(arrival.conn, error));
        }
        let number = one_more(self.given)?;
        let id = client_id(alloc, self.book.epoch, number)?;
        Ok(Reply::Register(arrival.conn, id))
    }

    /// Whether no new ID can be given.
    fn has_no_room(&self) -> bool
        ensures { result ≡ of.has_no_room (reading_in self.now) }
    {
        self.clients.known_ids(&self.book) >= ID_LIMIT || self.given >= u32::MAX
    }

    /// The answer to a client that comes back.
    fn reply_to_returner(&self, arrival: &ArrivalView<'_>, id: &Array8) -> Result<Reply, NoMemory>
        ensures { IfOk result (λ reply. (s : Session) →
            moves_of s reply ≡ of.rejoin (reading_in self.now) (arrival_of arrival.now) id.now) }
    {
        if self.may_rejoin(id) {
            return Ok(Reply::Register(arrival.conn, id.copy()?));
        }
        let error = bad_id(*self.acts.allocator(), arrival)?;
        Ok(Reply::Blame(arrival.conn, error))
    }

    /// Whether a client can have this ID again.
    fn may_rejoin(&self, id: &Array8) -> bool
        ensures { result ≡ of.may_rejoin (reading_in self.now) id.now }
    {
        is_recorded(&self.book, id.as_slice()) && self.clients.client_of(id.as_slice()).is_none()
    }

    /// Gives a connection its ID, by a RegisterClientReply.
    pub(crate) fn register(&mut self, conn: Conn, id: Array8) -> Result<(), NoMemory>
        ensures { OnOk result (self.new ≡ moved (Gave conn (ReplySaid id)) self.old) }
    {
        self.give_id(conn, &id)?;
        self.note_id(conn, &id)?;
        self.act(Act::Say(conn, XsmpMessage::RegisterClientReply { id }))?;
        Ok(())
    }

    /// A connection has this ID from now on, and begins with what the book has under it.
    fn give_id(&mut self, conn: Conn, id: &Array8) -> Result<(), NoMemory>
        ensures { OnOk result
            (self.new ≡ record self.old {
              clients = held_after (Gave conn (ReplySaid id.now))
                  (λ other. first_table self.old.book id.now) (λ dialog. false) self.old.clients;
            }) }
    {
        let table = first_table(*self.acts.allocator(), &self.book, id.as_slice())?;
        self.clients.register(conn, id.copy()?, table)?;
        Ok(())
    }

    /// Nobody is expected under this ID any more. Where its client asked for a new one it is
    /// counted, and a round for the client waits.
    fn note_id(&mut self, conn: Conn, id: &Array8) -> Result<(), NoMemory>
        ensures { OnOk result (self.new ≡ record self.old {
          waits = cond (is_only conn self.old.newcomer) (self.old.waits ++ first_save conn ∷ []) self.old.waits;
          given = cond (is_only conn self.old.newcomer) (self.old.given + 1) self.old.given;
          expected = filter (λ other. not (bytes_eq id.now other)) self.old.expected;
        }) }
    {
        let is_new = is_only(conn, self.newcomer);
        drop_id(&mut self.expected, id);
        self.waits.add_newcomer(conn, is_new)?;
        self.given = given_after(self.given, is_new)?;
        Ok(())
    }
}

/// Who sent the last RegisterClient, where that asks for a new ID by an empty previous-ID, after a
/// client said this.
pub(crate) fn newcomer_said(
    conn: Conn,
    message: &XsmpMessage,
    newcomer: Option<Conn>,
) -> Option<Conn>
    ensures { result ≡ readings.newcomer_said conn message.now newcomer }
{
    match message {
        XsmpMessage::RegisterClient { previous } => {
            previous.as_slice().is_empty().then_some(conn)
        }
        _ => newcomer,
    }
}

/// Takes an ID out of a list.
fn drop_id(ids: &mut Vec<Array8>, id: &Array8)
    ensures { ids.new.items ≡ filter (λ other. not (bytes_eq id.now other)) ids.old.items }
{
    ids.retain(|other| id.as_slice() != other.as_slice());
}

/// How many new IDs were given, after one more was that is new or not.
fn given_after(given: u32, is_new: bool) -> Result<u32, NoMemory>
    ensures { IfOk result (λ after. after ≡ cond is_new (given + 1) given) }
{
    if is_new { one_more(given) } else { Ok(given) }
}

/// One more. A count that can't grow is refused as want of memory is.
pub(crate) fn one_more(count: u32) -> Result<u32, NoMemory>
    ensures { IfOk result (λ more. more ≡ count + 1) }
{
    count.checked_add(1).ok_or(NoMemory)
}
