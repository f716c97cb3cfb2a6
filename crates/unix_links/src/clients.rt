ghost use Rattle.std.specs.Prelude.{◌<◌, length, IfOk, IfSome};
ghost use Rattle.unix_links.specs.Arrivals.{IsArrival};

use crate::connection::Connection;
use crate::leavers::Leavers;
use crate::news::News;
use crate::reading::{Reading, is_passing, would_wait};
use mio::Registry;
use mio::net::UnixStream;
use owned_lists::{NoMemory, Octets};
use session_watch::{ClientWatch, Stage, put_client, put_count, put_shown};
use sm_world::{Conn, Event, Failure, PIECE_LIMIT};
use std::alloc::{AllocError, Global};
use std::collections::VecDeque;
use std::io;
use std::io::{ErrorKind, Read};
use stream_watch::{Place, Visitors};
use world_time::Hours;

/// The number of the connection to an outer manager. Whoever comes in has one from 1 on.
pub const OUTER: Conn = 0;

/// A connection that is open.
#[derive(Drop)]
struct Open {
    conn: Conn,
    connection: Connection,
    /// It stands in the queue of those who may have something.
    queued: bool,
    /// What the clock showed as its client was given something last, or was heard.
    given: u64,
    /// What is known of its client by what it said and was told. An outer manager is no client.
    watch: Option<ClientWatch>,
    /// Somebody has answered for its client.
    excused: bool,
}

impl Open {
    /// How far its client is, as far as somebody waits for it.
    fn stage(&self) -> Option<Stage> {
        let watch = self.watch.as_ref()?;
        Some(watch.stage().shown(self.excused))
    }

    /// Whether somebody waits for its client to say something, by what passed on its connection, or may
    /// wait since that can't be read any more.
    fn is_awaited(&self) -> bool {
        matches!(
            self.stage(),
            Some(Stage::Saving | Stage::Interacting | Stage::Unreadable)
        )
    }
}

/// Where the connection of a number stands, if the numbers go on by one from the first.
fn guess(open: &[Open], conn: Conn) -> usize {
    match open.first() {
        Some(first) => conn.saturating_sub(first.conn) as usize,
        None => 0,
    }
}

/// Where the connection of a number stands.
fn place_of(open: &[Open], conn: Conn) -> Option<usize>
    ensures { IfSome result (λ place. place < length open.now) }
{
    let place = guess(open, conn);
    match open.get(place) {
        Some(row) if row.conn == conn => Some(place),
        _ => open.binary_search_by_key(&conn, |row| row.conn).ok(),
    }
}

/// The connection of a number.
fn find(open: &mut [Open], conn: Conn) -> Option<&mut Open> {
    let place = place_of(open, conn)?;
    open.get_mut(place)
}

/// How many may come by the name that everybody can reach within so many milliseconds, whether they stay or
/// not. So who comes and goes as fast as the system lets him doesn't use up the numbers of connections.
const COMERS: usize = 32;

const COMING: u64 = 250;

/// The clients' connections, and the one to an outer manager, where there is one. That one is no
/// visitor: nobody makes way for it, and it makes way for nobody.
#[derive(Drop)]
pub struct Clients {
    alloc: Global,
    /// In the order of their numbers.
    open: Vec<Open>,
    /// The number that was given last. None is given twice.
    last: Conn,
    /// Who came and who was dropped, which is told next.
    news: VecDeque<News>,
    leaving: Leavers,
    /// The clients by what passed, and who of them makes way for others.
    visitors: Visitors,
    /// When the last ones came who came by the name that everybody can reach.
    comers: VecDeque<u64>,
    /// For whom the system hasn't been handed yet what was sent.
    unsent: Vec<Conn>,
    /// Something was sent that nobody was handed yet.
    gives: bool,
    /// What the clock showed last.
    clock: u64,
    /// What time it is for strangers and for those who are told to die: the milliseconds since the first
    /// moment, but for those in which we stood still.
    now: u64,
    /// Room for one read.
    piece: Vec<u8>,
}

impl Clients {
    pub fn new(alloc: Global) -> Result<Clients, AllocError> {
        Ok(Clients {
            alloc,
            open: Vec::new(alloc),
            last: 0,
            news: VecDeque::new(alloc),
            leaving: Leavers::new(alloc),
            visitors: Visitors::new(alloc),
            comers: VecDeque::new(alloc),
            unsent: Vec::new(alloc),
            gives: false,
            clock: 0,
            now: 0,
            piece: vec![in alloc; 0u8; PIECE_LIMIT]?,
        })
    }

    /// Notes what time it is.
    pub fn set_time(&mut self, hours: &Hours) {
        self.clock = hours.read();
        self.now = hours.awake();
    }

    /// What time it is for strangers.
    pub fn time(&self) -> u64 {
        self.now
    }

    /// Whether somebody waits for one of the clients.
    pub fn are_awaited(&self) -> bool {
        self.open.iter().any(|open| open.is_awaited())
    }

    /// Whether the client of a connection has said nothing, and was given nothing, for so many
    /// milliseconds.
    pub fn is_silent(&self, conn: Conn, wait: u64) -> bool {
        match place_of(&self.open, conn).and_then(|place| self.open.get(place)) {
            Some(open) => self.clock.saturating_sub(open.given) >= wait,
            None => false,
        }
    }

    /// Where one more finds a place.
    pub fn place(&self) -> Place {
        self.visitors.place_for_one_more(self.now)
    }

    /// Where somebody finds a place for whom there is no room left.
    pub fn place_in_need(&self) -> Place {
        self.visitors.place_of_first(self.now)
    }

    /// Whether so many have just come by the name that everybody can reach that the next one waits there.
    pub fn are_crowding(&self) -> bool {
        match self.comers.front() {
            Some(first) => {
                self.comers.len() >= COMERS && self.now.saturating_sub(*first) < COMING
            }
            None => false,
        }
    }

    /// Notes that somebody comes by the name that everybody can reach.
    pub fn note_comer(&mut self) -> Result<(), NoMemory> {
        if self.comers.len() >= COMERS {
            let _ = self.comers.pop_front();
        }
        self.comers.push_back(self.now)?;
        Ok(())
    }

    /// Takes in a new connection and gives it the next number. Where it is one too many, a stranger is
    /// dropped for it. Where there is no number left, or the system can't watch the connection, it is
    /// closed.
    pub fn add(&mut self, registry: &Registry, stream: UnixStream) -> Result<(), NoMemory> {
        let Some(conn) = self.last.checked_add(1) else {
            return Ok(());
        };
        let Some(connection) = Connection::new(self.alloc, registry, conn, stream) else {
            return Ok(());
        };
        if let Place::Of(stranger) = self.place() {
            self.lose(stranger)?;
        }
        self.visitors.join(conn, self.now)?;
        let watch = Some(ClientWatch::new(self.alloc, self.clock));
        self.open.push(Open {
            conn,
            connection,
            queued: false,
            given: self.clock,
            watch,
            excused: false,
        })?;
        self.last = conn;
        self.news.push_back(News::Came(conn))?;
        Ok(())
    }

    /// Takes in the connection to an outer manager. One that was open before is closed, and nothing is
    /// told of it.
    pub fn add_outer(&mut self, registry: &Registry, stream: UnixStream) -> io::Result<()> {
        let Some(connection) = Connection::new(self.alloc, registry, OUTER, stream) else {
            return Err(io::Error::from(ErrorKind::Other));
        };
        self.close(OUTER);
        let outer = Open {
            conn: OUTER,
            connection,
            queued: false,
            given: self.clock,
            watch: None,
            excused: false,
        };
        self.open.insert(0, outer)?;
        Ok(())
    }

    /// Notes what the system told of a connection besides that it can be read.
    pub fn told(
        &mut self,
        registry: &Registry,
        conn: Conn,
        ends: bool,
        takes: bool,
    ) -> Result<(), NoMemory> {
        let Some(open) = find(&mut self.open, conn) else {
            self.leaving.told(registry, conn, ends, takes);
            return Ok(());
        };
        open.connection.ends = open.connection.ends || ends;
        if takes && !open.connection.flush(registry, conn) {
            return self.lose(conn);
        }
        Ok(())
    }

    /// Notes that a connection stands in the queue of those who may have something, until it is read
    /// from, and says whether it stood there before; None where it isn't open.
    pub fn set_queued(&mut self, conn: Conn) -> Option<bool> {
        let open = find(&mut self.open, conn)?;
        let was = open.queued;
        open.queued = true;
        Some(was)
    }

    /// Reads once from a connection, which no longer stands in the queue.
    pub fn read(&mut self, conn: Conn) -> Result<Reading, NoMemory>
        ensures size { IfOk result (λ reading. IfSome reading.event IsArrival) }
    {
        let Some(open) = find(&mut self.open, conn) else {
            return Ok(self.leaving.read(conn, self.piece.as_mut_slice()));
        };
        open.queued = false;
        match open.connection.stream.read(self.piece.as_mut_slice()) {
            Ok(count) if 0 < count && count <= PIECE_LIMIT => {
                // A read that doesn't fill its room took all that there was.
                let more = open.connection.ends || count == PIECE_LIMIT;
                let bytes = Octets::from_slice(self.alloc, &self.piece[..count])?;
                open.given = self.clock;
                if let Some(watch) = &mut open.watch {
                    watch.hear(self.clock, bytes.as_slice())?;
                }
                Ok(Reading {
                    event: Some(Event::Piece(conn, bytes)),
                    more,
                })
            }
            Err(error) if would_wait(&error) => Ok(Reading::nothing()),
            Err(error) if is_passing(&error) => Ok(Reading::later()),
            _ => {
                self.close(conn);
                Ok(Reading {
                    event: Some(Event::Gone(conn)),
                    more: false,
                })
            }
        }
    }

    /// Sends bytes on a connection, which go out at the next `flush`. One that can't be served any more
    /// is lost.
    pub fn send(&mut self, registry: &Registry, to: Conn, bytes: &[u8]) -> Result<(), NoMemory> {
        let Some(open) = find(&mut self.open, to) else {
            return Ok(());
        };
        self.visitors.follow(to, self.now, bytes)?;
        if let Some(watch) = &mut open.watch {
            watch.tell(self.clock, bytes)?;
        }
        self.gives = true;
        if open.connection.is_sent() {
            self.unsent.push(to)?;
        }
        if open.connection.put(registry, to, bytes)? {
            Ok(())
        } else {
            self.lose(to)
        }
    }

    /// Notes whether somebody has answered for a client.
    pub fn excuse(&mut self, conn: Conn, excused: bool) {
        if let Some(open) = find(&mut self.open, conn) {
            open.excused = excused;
        }
    }

    /// Whether something was sent that nobody was handed yet.
    pub fn gives(&self) -> bool {
        self.gives
    }

    /// Whether somebody waits for one of those who are handed next what was sent.
    pub fn asks(&self) -> bool {
        self.unsent.iter().any(|conn| self.awaits(*conn))
    }

    fn awaits(&self, conn: Conn) -> bool {
        let open = place_of(&self.open, conn).and_then(|place| self.open.get(place));
        open.is_some_and(|open| open.is_awaited())
    }

    /// Hands the system what was sent since the last time, each connection's at once. One that can't be
    /// served any more is lost.
    pub fn flush(&mut self, registry: &Registry) -> Result<(), NoMemory> {
        self.gives = false;
        for at in 0..self.unsent.len() {
            let Some(conn) = self.unsent.get(at).copied() else {
                break;
            };
            self.flush_one(registry, conn)?;
        }
        self.unsent.clear();
        Ok(())
    }

    /// Hands the system what waits for a peer, where its connection is still open.
    fn flush_one(&mut self, registry: &Registry, conn: Conn) -> Result<(), NoMemory> {
        let Some(open) = find(&mut self.open, conn) else {
            return Ok(());
        };
        open.given = self.clock;
        if open.connection.flush(registry, conn) {
            Ok(())
        } else {
            self.lose(conn)
        }
    }

    /// Closes a connection gently. What was sent on it still reaches the peer.
    pub fn shut(&mut self, registry: &Registry, conn: Conn) {
        if let Some(place) = place_of(&self.open, conn) {
            let open = self.open.remove(place);
            self.visitors.leave(conn);
            self.leaving.add(registry, conn, open.connection);
        }
    }

    /// Closes those that were shut and whose time is over after so many milliseconds.
    pub fn pass(&mut self, milliseconds: u64) {
        self.leaving.pass(milliseconds);
    }

    /// Whether connections that were shut aren't closed yet.
    pub fn has_leavers(&self) -> bool {
        !self.leaving.is_empty()
    }

    /// Drops the strangers who have had their time.
    pub fn drop_overdue(&mut self) -> Result<(), NoMemory> {
        for _ in 0..u32::MAX {
            match self.visitors.overdue(self.now) {
                Some(conn) => self.lose(conn)?,
                None => break,
            }
        }
        Ok(())
    }

    /// The first whose client was told to die so many milliseconds ago, or before.
    pub fn lingering(&self, wait: u64) -> Option<Conn> {
        self.visitors.lingering(self.now, wait)
    }

    /// The program at the other end of a connection, as it can be printed.
    pub fn program(&self, conn: Conn) -> Result<Octets, NoMemory> {
        let mut name = Octets::new(self.alloc);
        let open = place_of(&self.open, conn).and_then(|place| self.open.get(place));
        let watch = open.and_then(|open| open.watch.as_ref());
        match watch.and_then(|watch| watch.program()) {
            Some(program) => put_shown(self.alloc, &mut name, program.as_slice())?,
            None => name.append(b"a program without a name")?,
        }
        Ok(name)
    }

    /// The lines that say who is there.
    pub fn lines(&self) -> Result<Octets, NoMemory> {
        let mut lines = Octets::new(self.alloc);
        let count = self.open.iter().filter(|open| open.watch.is_some()).count();
        put_count(self.alloc, &mut lines, count as u64)?;
        for open in &self.open {
            if let Some(watch) = &open.watch {
                let (conn, excused) = (open.conn, open.excused);
                put_client(self.alloc, &mut lines, conn, self.clock, excused, watch)?;
            }
        }
        Ok(lines)
    }

    /// Closes a connection that is to be told as gone.
    pub fn lose(&mut self, conn: Conn) -> Result<(), NoMemory> {
        self.news.push_back(News::Went(conn))?;
        self.close(conn);
        Ok(())
    }

    /// Closes a connection, and forgets what was known of its client.
    fn close(&mut self, conn: Conn) {
        if let Some(place) = place_of(&self.open, conn) {
            let _ = self.open.remove(place);
        }
        self.visitors.leave(conn);
    }

    /// Who came or was lost and isn't told yet.
    pub fn next_news(&mut self) -> Option<Event>
        ensures size { IfSome result IsArrival }
    {
        match self.news.pop_front() {
            Some(news) => Some(news.event()),
            None => None,
        }
    }

    /// Whether something isn't told yet.
    pub fn has_news(&self) -> bool {
        !self.news.is_empty()
    }
}
