ghost use Rattle.session_engine.specs.Places.{AreSeated};

use crate::connection::{Answered, Connection};
use ice_cookie::Cookie;
use manager_machine::{Act as SessionAct, Manager};
use owned_lists::NoMemory;
use slab::Slab;
use sm_world::Conn;
use std::alloc::Global;
use std::collections::BTreeMap;

/// The live connections. Each stays where it lies for as long as it is live.
#[derive(Debug, Drop)]
pub struct Connections {
    /// Where the connection of each number lies.
    places: BTreeMap<Conn, usize>,
    seats: Slab<Connection>,
    /// At each such place there is a connection, and it is of this number.
    ghost seated: { AreSeated places seats },
}

impl Connections {
    ghost use Rattle.std.specs.Prelude.{◌≡◌, ◌≢◌, ◌≤◌, ℕ, [], ◌∷◌, length, true, None, Some, is_some, IfSome, IfOk, OnOk};
    ghost use Rattle.session_state.specs.Session.{reading_in};
    ghost use Rattle.session_engine.specs.Answers.{speaks_xsmp};
    ghost use Rattle.session_engine.specs.Bringing.{CanHear, CutsSo, said_by};
    ghost use Rattle.session_engine.specs.Messages.{CanBeSaid};
    ghost use Rattle.session_engine.specs.Cutting.{IsNew};
    ghost use Rattle.session_engine.specs.Shown.{kept_at, ChangesAt, CutsAt, Leaves, UnsetsAt};
    ghost use Rattle.session_engine.specs.Telling.{FollowsLive};
    ghost use Rattle.session_engine.specs.declared.connection.Connection.{Connection};

    pub fn new(alloc: Global) -> Connections
        ensures { (q : ℕ) → kept_at result q ≡ None }
    {
        Connections {
            places: BTreeMap::new(alloc),
            seats: Slab::new(alloc),
        }
    }

    pub fn is_live(&self, conn: Conn) -> bool
        ensures { result ≡ is_some (kept_at self.now conn) }
    {
        self.places.contains_key(&conn)
    }

    /// Makes a connection live that isn't, of a session with this cookie.
    pub fn join(&mut self, alloc: Global, cookie: Cookie, conn: Conn) -> Result<(), NoMemory>
        requires { kept_at self.old conn ≡ None }
        ensures { OnOk result ((kept : Connection) × IsNew cookie kept
            × ChangesAt self.old self.new conn (Some kept)) }
    {
        let place = self.seats.insert(Connection::new(alloc, cookie, conn)?)?;
        if self.places.insert(conn, place).is_err() {
            self.seats.try_remove(place);
            return Err(NoMemory);
        }
        Ok(())
    }

    /// Takes the rest of a piece up to the end of the first part. `None` where it completes no
    /// part, or the connection isn't live. The session hears a message of XSMP at once.
    pub fn cut(
        &mut self,
        alloc: Global,
        manager: &mut Manager,
        conn: Conn,
        left: &[u8],
    ) -> Result<Option<Answered>, NoMemory>
        requires { IfSome (kept_at self.old conn) (λ kept. speaks_xsmp kept.setup ≡ true →
            CanHear conn (reading_in manager.old.session)) }
        ensures cut { IfOk result (λ answered. CutsSo conn (λ part.
            CutsAt (kept_at self.old conn) left.now part (kept_at self.new conn)) answered
            manager.old manager.new) }
        ensures said { IfOk result (λ answered.
            IfSome answered (λ part. CanBeSaid (said_by part.reply))) }
        ensures some { IfOk result (λ answered. IfSome answered (λ part. 1 ≤ part.count)) }
        ensures within { IfOk result (λ answered.
            IfSome answered (λ part. part.count ≤ length left.now)) }
        ensures others { OnOk result ((q : ℕ) → q ≢ conn →
            kept_at self.new q ≡ kept_at self.old q) }
    {
        let Some(place) = self.places.get(&conn) else {
            return Ok(None);
        };
        let Some(connection) = self.seats.get_mut(*place) else {
            return Ok(None);
        };
        let answered = connection.cut(alloc, manager, left)?;
        Ok(answered)
    }

    /// Takes a connection out, if it is live.
    pub fn leave(&mut self, conn: Conn)
        ensures { Leaves conn self.old self.new }
    {
        if let Some(place) = self.places.remove(&conn) {
            self.seats.try_remove(place);
        }
    }

    /// Notes that XSMP has ended on a connection, if it is live.
    pub fn unset(&mut self, conn: Conn)
        ensures at { UnsetsAt (kept_at self.old conn) (kept_at self.new conn) }
        ensures others { (q : ℕ) → q ≢ conn → kept_at self.new q ≡ kept_at self.old q }
    {
        let Some(place) = self.places.get(&conn) else {
            return;
        };
        if let Some(connection) = self.seats.get_mut(*place) {
            connection.unset();
        }
    }

    /// Does what an act of the session brings here.
    fn follow_one(&mut self, act: &SessionAct)
        ensures { FollowsLive (act.now ∷ []) self.old self.new }
    {
        match act {
            SessionAct::Say(_, _) => {}
            SessionAct::Blame(_, _) => {}
            SessionAct::Unset(conn) => self.unset(*conn),
            SessionAct::Shut(conn) => self.leave(*conn),
            SessionAct::Start(_reason, _command) => {}
            SessionAct::Commit(_) => {}
            SessionAct::Print(_) => {}
            SessionAct::Finish => {}
        }
    }

    /// Does what acts of the session bring here, in their order.
    pub fn follow(&mut self, acts: &[SessionAct])
        ensures { FollowsLive acts.now self.old self.new }
    {
        for act in acts {
            self.follow_one(act);
        }
    }
}
