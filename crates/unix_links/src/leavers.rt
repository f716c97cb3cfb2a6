ghost use Rattle.std.specs.Prelude.{◌≡◌, None};

use crate::connection::Connection;
use crate::reading::{Reading, is_passing, would_wait};
use mio::Registry;
use sm_world::{Conn, PIECE_LIMIT};
use std::alloc::Global;
use std::collections::BTreeMap;
use std::io::Read;

/// How many connections may be closing at once.
const LEAVER_LIMIT: usize = 64;

/// How many milliseconds the peer has to close its end.
const GRACE: u64 = 1_000;

/// A connection that is closing.
#[derive(Drop)]
struct Leaver {
    connection: Connection,
    /// The milliseconds until it is closed anyway.
    left: u64,
}

/// The connections that are closing. To close one at once would lose what still waits for the peer,
/// and a peer that is still writing would fail before it has read why. So what waits is delivered,
/// and then the end; and what still comes is thrown away, until the peer has closed its end or a
/// second has passed.
#[derive(Drop)]
pub struct Leavers {
    open: BTreeMap<Conn, Leaver>,
}

impl Leavers {
    pub fn new(alloc: Global) -> Leavers {
        Leavers {
            open: BTreeMap::new(alloc),
        }
    }

    /// Takes a connection over. Where too many are closing, the oldest is closed at once; and this
    /// one is, where there is no memory for it.
    pub fn add(&mut self, registry: &Registry, conn: Conn, mut connection: Connection) {
        if !connection.finish(registry, conn) {
            return;
        }
        if self.open.len() >= LEAVER_LIMIT {
            let _ = self.open.pop_first();
        }
        let left = GRACE;
        let _ = self.open.insert(conn, Leaver { connection, left });
    }

    /// Notes what the system told of a connection besides that it can be read.
    pub fn told(&mut self, registry: &Registry, conn: Conn, ends: bool, takes: bool) {
        let Some(leaver) = self.open.get_mut(&conn) else {
            return;
        };
        leaver.connection.ends = leaver.connection.ends || ends;
        if takes && !leaver.connection.finish(registry, conn) {
            let _ = self.open.remove(&conn);
        }
    }

    /// Reads once from a connection, and throws it away.
    pub fn read(&mut self, conn: Conn, room: &mut [u8]) -> Reading
        ensures { result.event ≡ None }
    {
        let Some(leaver) = self.open.get_mut(&conn) else {
            return Reading::nothing();
        };
        match leaver.connection.stream.read(room) {
            Ok(count) if 0 < count => {
                if leaver.connection.ends || count == PIECE_LIMIT {
                    Reading::later()
                } else {
                    Reading::nothing()
                }
            }
            Err(error) if would_wait(&error) => Reading::nothing(),
            Err(error) if is_passing(&error) => Reading::later(),
            _ => {
                let _ = self.open.remove(&conn);
                Reading::nothing()
            }
        }
    }

    /// Closes those whose time is over after so many milliseconds.
    pub fn pass(&mut self, milliseconds: u64) {
        self.open.retain(|_conn, leaver| {
            leaver.left = leaver.left.saturating_sub(milliseconds);
            leaver.left > 0
        });
    }

    pub fn is_empty(&self) -> bool {
        self.open.is_empty()
    }
}
