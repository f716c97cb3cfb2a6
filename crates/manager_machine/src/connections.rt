ghost use Rattle.std.specs.Prelude.{◌≡◌, IfOk, OnOk, flat_map, map, Option, Some, ◌+◌, ◌++◌, ◌∷◌, [], cond, false};
ghost use Rattle.session_model.specs.Moves.{Closed, Outside, Respawn as AsRespawn, Tried as HasTried};
ghost use Rattle.session_model.specs.declared.events.SessionEvent.TheVariants.{Left as HasLeft, Joined as HasJoined, Ready as IsReady};
ghost use Rattle.session_model.specs.Replies.{depart, id_respawn, respawn_moves, respawned};
ghost use Rattle.session_state.specs.Session.{moved, moved_all, reading_in, Session, counted, one_more_of};
ghost use Rattle.manager_machine.specs.Answers.{departures_moves, again_moves, moves_of, shut_moves};
ghost use Rattle.restart_plan.specs.Restarts.{respawn as respawn_of};
ghost use Rattle.session_model.specs.Replies as of;

use crate::messages::add_stray;
use crate::registrations::one_more;
use crate::replies::{Again, Departure, Reply};
use crate::session_core::{Core, Counts};
use checkpoint_records::Entry;
use ice_values::Array8;
use owned_lists::{Command, Duplicate, ListOf, NoMemory};
use restart_plan::respawn;
use session_clients::{entry_of, is_dying};
use session_model::{Act, Reason};
use sm_world::Conn;
use std::alloc::Global;
use std::collections::VecDeque;

/// How many connections may be live.
const LIVE_LIMIT: usize = 64;

impl Core {
    /// The answer to a connection that was opened.
    fn reply_to_joining(&self, conn: Conn) -> Reply
        ensures { (s : Session) → moves_of s result
            ≡ of.reply (reading_in self.now) (HasJoined conn) }
    {
        if self.is_ending || self.clients.live_count() >= LIVE_LIMIT {
            return Reply::Shut(conn, None);
        }
        Reply::Quiet
    }

    /// A connection was opened.
    pub(crate) fn answer_joining(&mut self, conn: Conn) -> Result<(), NoMemory>
        ensures { OnOk result
            (self.new ≡ moved_all
            (Outside (HasJoined conn) ∷ of.reply (reading_in self.old) (HasJoined conn)) self.old) }
    {
        let reply = self.reply_to_joining(conn);
        self.join(conn)?;
        self.perform(reply)?;
        Ok(())
    }

    /// A connection was opened.
    fn join(&mut self, conn: Conn) -> Result<(), NoMemory>
        ensures { OnOk result (self.new ≡ moved (Outside (HasJoined conn)) self.old) }
    {
        self.clients.join(conn)?;
        Ok(())
    }

    /// XSMP has begun on a connection.
    pub(crate) fn ready(&mut self, conn: Conn) -> Result<(), NoMemory>
        ensures { OnOk result (self.new ≡ moved (Outside (IsReady conn)) self.old) }
    {
        self.clients.ready(conn);
        Ok(())
    }

    /// The answer to a connection that is gone.
    fn reply_to_leaving(&self, conn: Conn) -> Result<Reply, NoMemory>
        ensures { IfOk result (λ reply. (s : Session) →
            moves_of s reply ≡ of.reply (reading_in self.now) (HasLeft conn)) }
    {
        Ok(Reply::StartAgain(self.again(conn)?))
    }

    /// A connection is gone.
    pub(crate) fn answer_leaving(&mut self, conn: Conn) -> Result<(), NoMemory>
        ensures { OnOk result
            (self.new ≡ moved_all
            (Outside (HasLeft conn) ∷ of.reply (reading_in self.old) (HasLeft conn)) self.old) }
    {
        let reply = self.reply_to_leaving(conn)?;
        self.leave(conn)?;
        self.perform(reply)?;
        Ok(())
    }

    /// A connection is gone.
    fn leave(&mut self, conn: Conn) -> Result<(), NoMemory>
        ensures { OnOk result (self.new ≡ moved (Outside (HasLeft conn)) self.old) }
    {
        let command = self.clients.discard(conn)?;
        add_stray(&mut self.ledger, &self.book, command)?;
        self.clients.leave(conn);
        self.queue.leave(conn);
        self.running.leave(conn);
        self.waits.leave(conn);
        Ok(())
    }

    /// Shuts a connection.
    fn close(&mut self, conn: Conn) -> Result<(), NoMemory>
        ensures { OnOk result (self.new ≡ moved (Closed conn) self.old) }
    {
        self.leave(conn)?;
        self.act(Act::Shut(conn))?;
        Ok(())
    }

    /// Shuts each of these connections.
    pub(crate) fn close_each(&mut self, conns: &[Conn]) -> Result<(), NoMemory>
        ensures { OnOk result (self.new ≡ moved_all (map Closed conns.now) self.old) }
    {
        for conn in conns {
            self.close(*conn)?;
        }
        Ok(())
    }

    /// What is to be done as each of these connections is shut, which none of them changes for another.
    pub(crate) fn departures(&self, conns: &[Conn]) -> Result<ListOf<Departure>, NoMemory>
        ensures { IfOk result (λ departures. departures_moves departures
            ≡ flat_map (depart (reading_in self.now)) conns.now) }
    {
        let mut departures = ListOf::new(*self.acts.allocator());
        for conn in conns {
            let again = self.again(*conn)?;
            departures.push(Departure { conn: *conn, again })?;
        }
        Ok(departures)
    }

    /// A connection is shut, and its client is started again, where it has to be.
    pub(crate) fn shut(&mut self, conn: Conn, again: Option<Again>) -> Result<(), NoMemory>
        ensures { OnOk result (self.new ≡ moved_all (shut_moves conn again) self.old) }
    {
        self.close(conn)?;
        self.start_departed(again)?;
        Ok(())
    }

    /// Each of these connections is shut, and its client is started again, where it has to be.
    pub(crate) fn shut_each(&mut self, departures: ListOf<Departure>) -> Result<(), NoMemory>
        ensures { OnOk result (self.new ≡ moved_all (departures_moves departures) self.old) }
    {
        let mut left = VecDeque::from(departures.into_vec());
        while let Some(departure) = left.pop_front() {
            self.shut(departure.conn, departure.again)?;
        }
        Ok(())
    }

    /// The client of a connection, where it is started again as it departs: it wasn't told to die,
    /// and its entry says so.
    pub(crate) fn again(&self, conn: Conn) -> Result<Option<Again>, NoMemory>
        ensures { IfOk result (λ again. again_moves again ≡ respawned (reading_in self.now) conn) }
    {
        if is_dying(self.clients.phase(conn)) {
            return Ok(None);
        }
        match self.clients.id(conn) {
            Some(id) => self.again_under(id),
            None => Ok(None),
        }
    }

    /// The client of an ID, where it is started again as it departs.
    fn again_under(&self, id: &Array8) -> Result<Option<Again>, NoMemory>
        ensures { IfOk result (λ again. again_moves again
            ≡ id_respawn (reading_in self.now) (Some id.now)) }
    {
        match entry_of(&self.book, id.as_slice()) {
            Some(entry) => {
                let count = count_of(&self.counts, id);
                again_of(*self.acts.allocator(), id, entry, count)
            }
            None => Ok(None),
        }
    }

    /// The client that departed is started again, where it has to be.
    pub(crate) fn start_departed(&mut self, again: Option<Again>) -> Result<(), NoMemory>
        ensures { OnOk result (self.new ≡ moved_all (again_moves again) self.old) }
    {
        match again {
            Some(again) => self.start_again(again.id, again.command),
            None => Ok(()),
        }
    }

    /// Starts a command because the client of this ID departed, and counts it.
    fn start_again(&mut self, id: Array8, command: Command) -> Result<(), NoMemory>
        ensures { OnOk result (self.new ≡ moved (HasTried (AsRespawn id) command) self.old) }
    {
        count_more(&mut self.counts, id)?;
        self.act(Act::Start(Reason::Restart, command))?;
        Ok(())
    }
}

/// The client of an entry, where it is started again as it departs: that was done `count` times
/// before.
fn again_of(
    alloc: Global,
    id: &Array8,
    entry: &Entry,
    count: u32,
) -> Result<Option<Again>, NoMemory>
    ensures { IfOk result (λ again. again_moves again
        ≡ respawn_moves id.now (respawn_of entry.now count)) }
{
    match respawn(alloc, entry, count)? {
        Some(command) => Ok(Some(Again {
            id: id.copy()?,
            command,
        })),
        None => Ok(None),
    }
}

/// How often the client of an ID was started again at once.
fn count_of(counts: &[(Array8, u32)], id: &Array8) -> u32
    ensures { result ≡ counted id.now counts.now }
{
    for (other, count) in counts {
        if id.as_slice() == other.as_slice() {
            return *count;
        }
    }
    0
}

/// Counts once more that the client of an ID was started again.
fn count_more(counts: &mut Counts, id: Array8) -> Result<(), NoMemory>
    ensures { OnOk result (counts.new.items ≡ one_more_of id counts.old.items) }
{
    if !raise(counts, &id)? {
        counts.push((id, 1))?;
    }
    Ok(())
}

/// Raises the first count of an ID. False where there is none.
fn raise(counts: &mut [(Array8, u32)], id: &Array8) -> Result<bool, NoMemory>
    ensures { IfOk result (λ found. cond found counts.new (counts.new ++ (id.now, 1) ∷ [])
        ≡ one_more_of id.now counts.old) }
{
    for (other, count) in counts {
        if id.as_slice() == other.as_slice() {
            *count = one_more(*count)?;
            return Ok(true);
        }
    }
    Ok(false)
}
