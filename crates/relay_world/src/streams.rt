ghost use Rattle.std.specs.Prelude.{IfOk, IfSome};
ghost use Rattle.sm_world.specs.Events.{HasPieceSize};

use crate::news::News;
use mio::Registry;
use mio::net::UnixStream;
use owned_lists::{NoMemory, Octets};
use sm_world::{Conn, Event, PIECE_LIMIT};
use std::alloc::{AllocError, Global};
use std::collections::{BTreeMap, VecDeque};
use std::io::Read;
use stream_watch::{Place, Visitors};
use unix_links::{Connection, Leavers, Reading, is_passing, would_wait};
use world_time::LONGEST;

/// How many connections a relay serves at once: two for each client.
const LIVE_LIMIT: usize = 64;

/// The connections of a relay, by their numbers: 2k - 1 is that of a client, and 2k leads it on.
#[derive(Drop)]
pub struct Streams {
    alloc: Global,
    open: BTreeMap<Conn, Connection>,
    /// The number that was given last, which is even. None is given twice.
    last: Conn,
    /// Who came and who was dropped, which is told next.
    news: VecDeque<News>,
    leaving: Leavers,
    /// The clients by what the manager sends them, and who of them makes way for others.
    visitors: Visitors,
    /// What time it is for strangers, in milliseconds.
    now: u64,
    /// Room for one read.
    piece: Vec<u8>,
}

impl Streams {
    pub fn new(alloc: Global) -> Result<Streams, AllocError> {
        Ok(Streams {
            alloc,
            open: BTreeMap::new(alloc),
            last: 0,
            news: VecDeque::new(alloc),
            leaving: Leavers::new(alloc),
            visitors: Visitors::new(alloc),
            now: 0,
            piece: vec![in alloc; 0u8; PIECE_LIMIT]?,
        })
    }

    /// Where one more client finds a place.
    pub fn place(&self) -> Place {
        if self.open.len() >= LIVE_LIMIT {
            self.place_in_need()
        } else {
            self.visitors.place_for_one_more(self.now)
        }
    }

    /// Where a client finds a place for whom the system has none left.
    pub fn place_in_need(&self) -> Place {
        self.visitors.place_of_first(self.now)
    }

    /// Takes in a client and the connection that leads it on, and gives them the next two numbers. Where
    /// it is one too many, a stranger is dropped for it. Where there are no numbers left, or the system can't watch both, both are closed.
    pub fn add(
        &mut self,
        registry: &Registry,
        near: UnixStream,
        far: UnixStream,
    ) -> Result<(), NoMemory> {
        let Some(second) = self.last.checked_add(2) else {
            return Ok(());
        };
        let first = second - 1;
        let Some(near) = Connection::new(self.alloc, registry, first, near) else {
            return Ok(());
        };
        let Some(far) = Connection::new(self.alloc, registry, second, far) else {
            return Ok(());
        };
        if let Place::Of(stranger) = self.place() {
            self.lose(stranger)?;
        }
        self.visitors.join(first, self.now)?;
        self.last = second;
        self.open.insert(first, near)?;
        self.open.insert(second, far)?;
        self.news.push_back(News::Came(first))?;
        self.news.push_back(News::Came(second))?;
        Ok(())
    }

    /// Notes what the system told of a connection besides that it can be read.
    pub fn told(
        &mut self,
        registry: &Registry,
        conn: Conn,
        ends: bool,
        takes: bool,
    ) -> Result<(), NoMemory> {
        let Some(connection) = self.open.get_mut(&conn) else {
            self.leaving.told(registry, conn, ends, takes);
            return Ok(());
        };
        connection.ends = connection.ends || ends;
        if takes && !connection.flush(registry, conn) {
            return self.lose(conn);
        }
        Ok(())
    }

    /// Reads once from a connection.
    pub fn read(&mut self, conn: Conn) -> Result<Reading, NoMemory>
        ensures size { IfOk result (λ reading. IfSome reading.event HasPieceSize) }
    {
        let Some(connection) = self.open.get_mut(&conn) else {
            return Ok(self.leaving.read(conn, self.piece.as_mut_slice()));
        };
        match connection.stream.read(self.piece.as_mut_slice()) {
            Ok(count) if 0 < count && count <= PIECE_LIMIT => {
                // A read that doesn't fill its room took all that there was.
                let more = connection.ends || count == PIECE_LIMIT;
                let bytes = Octets::from_slice(self.alloc, &self.piece[..count])?;
                Ok(Reading {
                    event: Some(Event::Piece(conn, bytes)),
                    more,
                })
            }
            Err(error) if would_wait(&error) => Ok(Reading::nothing()),
            Err(error) if is_passing(&error) => Ok(Reading::later()),
            _ => {
                self.visitors.leave(conn);
                let _ = self.open.remove(&conn);
                Ok(Reading {
                    event: Some(Event::Gone(conn)),
                    more: false,
                })
            }
        }
    }

    /// Sends bytes on a connection. One for which too many wait is dropped.
    pub fn send(&mut self, registry: &Registry, to: Conn, bytes: &[u8]) -> Result<(), NoMemory> {
        let Some(connection) = self.open.get_mut(&to) else {
            return Ok(());
        };
        if connection.send(registry, to, bytes)? {
            self.visitors.follow(to, self.now, bytes)
        } else {
            self.lose(to)
        }
    }

    /// Closes a connection gently. What was sent on it still reaches the peer.
    pub fn shut(&mut self, registry: &Registry, conn: Conn) {
        self.visitors.leave(conn);
        if let Some(connection) = self.open.remove(&conn) {
            self.leaving.add(registry, conn, connection);
        }
    }

    /// Drops a connection, which is to be told as gone.
    pub fn lose(&mut self, conn: Conn) -> Result<(), NoMemory> {
        self.news.push_back(News::Went(conn))?;
        self.visitors.leave(conn);
        let _ = self.open.remove(&conn);
        Ok(())
    }

    /// Closes those that were shut and whose time is over after so many milliseconds, and drops the
    /// strangers who have had theirs. Of a time in which the relay itself stood still half a second counts.
    pub fn pass(&mut self, milliseconds: u64) -> Result<(), NoMemory> {
        self.leaving.pass(milliseconds);
        self.now = self.now.saturating_add(milliseconds.min(LONGEST));
        for _ in 0..u32::MAX {
            match self.visitors.overdue(self.now) {
                Some(stranger) => self.lose(stranger)?,
                None => break,
            }
        }
        Ok(())
    }

    /// Whether somebody is there who hasn't shown the cookie.
    pub fn has_strangers(&self) -> bool {
        self.place_in_need() != Place::Free
    }

    /// Whether connections that were shut aren't closed yet.
    pub fn has_leavers(&self) -> bool {
        !self.leaving.is_empty()
    }

    /// Who came or was dropped and isn't told yet.
    pub fn next_news(&mut self) -> Option<Event>
        ensures { IfSome result HasPieceSize }
    {
        match self.news.pop_front() {
            Some(news) => Some(news.event()),
            None => None,
        }
    }

    /// Whether something isn't told yet.
    pub fn has_news(&self) -> bool {
        !self.news.is_empty()
    }
}
