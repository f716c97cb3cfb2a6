ghost use Rattle.std.specs.Prelude.{IfOk, IfSome};
ghost use Rattle.sm_world.specs.Events.{HasPieceSize};

use crate::doors::Doors;
use crate::streams::Streams;
use mio::net::UnixStream;
use mio::{Events, Poll};
use owned_lists::NoMemory;
use sm_world::{Conn, Event, Failure};
use std::collections::VecDeque;
use std::io;
use std::time::{Duration, Instant};
use stream_watch::Place;
use unix_links::{Reading, Source, is_passing, refused, would_wait};

/// How many milliseconds are waited at most where something goes by the clock.
const PAUSE: u64 = 250;

/// How many ready sources the system tells of at once.
const READY: usize = 128;

/// The doors of a relay and all connections. Those that may have something stand in a queue, each
/// once; a turn serves each of them once, and between two turns the system is asked who else is ready.
#[derive(Drop)]
pub struct Sockets {
    rt: HostRuntime,
    poll: Poll,
    events: Events,
    /// What the last wait found.
    found: Vec<mio::event::Event>,
    doors: Doors,
    /// The manager's socket.
    to: String,
    streams: Streams,
    queue: VecDeque<Source>,
    /// How many of the queue are served before the system is asked again.
    turn: usize,
    /// A connection couldn't be taken in. The doors are tried again after the pause.
    stalled: bool,
    /// When the clock was looked at.
    looked: Instant,
}

impl Sockets {
    /// Waits at these doors, and leads those who come to this socket.
    pub fn new(rt: HostRuntime, mut doors: Doors, to: String) -> io::Result<Sockets> {
        let alloc = rt.alloc();
        let poll = Poll::new(&rt)?;
        doors.watch(poll.registry())?;
        Ok(Sockets {
            rt,
            poll,
            events: Events::with_capacity(alloc, READY)?,
            found: Vec::new(alloc),
            doors,
            to,
            streams: Streams::new(alloc)?,
            queue: VecDeque::new(alloc),
            turn: 0,
            stalled: false,
            looked: Instant::now(&rt)?,
        })
    }

    /// The next event. The system wakes us as soon as somebody is ready.
    pub fn next(&mut self) -> Result<Event, Failure>
        ensures size { IfOk result HasPieceSize }
    {
        for _ in 0..u64::MAX {
            if let Some(event) = self.take()? {
                return Ok(event);
            }
            self.wait()?;
            self.pass()?;
        }
        Err(Failure::Failed)
    }

    /// How long may be waited; without an end where nothing goes by the clock.
    fn patience(&self) -> Option<Duration> {
        if !self.queue.is_empty() || self.streams.has_news() {
            Some(Duration::from_millis(0))
        } else if self.stalled || self.streams.has_leavers() || self.streams.has_strangers() {
            Some(Duration::from_millis(PAUSE))
        } else {
            None
        }
    }

    /// Waits until somebody is ready, and puts all who are into the queue.
    fn wait(&mut self) -> Result<(), Failure> {
        let time = self.patience();
        self.poll.poll(&mut self.events, time).map_err(refused)?;
        self.found.clear();
        for event in self.events.iter() {
            self.found.push(*event)?;
        }
        for at in 0..self.found.len() {
            let Some(event) = self.found.get(at).copied() else {
                break;
            };
            self.note(event)?;
        }
        self.turn = self.queue.len();
        Ok(())
    }

    /// Does what goes by the clock.
    fn pass(&mut self) -> Result<(), Failure> {
        let now = Instant::now(&self.rt).map_err(refused)?;
        let passed = now.saturating_duration_since(self.looked).as_millis();
        let milliseconds = u64::try_from(passed).unwrap_or(u64::MAX);
        if milliseconds < PAUSE {
            return Ok(());
        }
        self.looked = now;
        self.streams.pass(milliseconds)?;
        if self.stalled {
            self.stalled = false;
            self.enqueue(Source::Clients)?;
            self.enqueue(Source::Hidden)?;
        }
        Ok(())
    }

    /// Notes what the system told of a source.
    fn note(&mut self, event: mio::event::Event) -> Result<(), NoMemory> {
        let source = Source::of(event.token());
        let ends = event.is_read_closed() || event.is_error();
        if let Source::Client(conn) = source {
            let registry = self.poll.registry();
            self.streams
                .told(registry, conn, ends, event.is_writable())?;
        }
        if event.is_readable() || ends {
            self.enqueue(source)?;
        }
        Ok(())
    }

    fn enqueue(&mut self, source: Source) -> Result<(), NoMemory> {
        if !self.queue.contains(&source) {
            self.queue.push_back(source)?;
        }
        Ok(())
    }

    /// Tells what is known already, or serves those whose turn it is until one gives an event.
    fn take(&mut self) -> Result<Option<Event>, Failure>
        ensures size { IfOk result (λ event. IfSome event HasPieceSize) }
    {
        for _ in 0..u64::MAX {
            let news = self.streams.next_news();
            if news.is_some() {
                return Ok(news);
            }
            if self.turn == 0 {
                break;
            }
            self.turn -= 1;
            let Some(source) = self.queue.pop_front() else {
                break;
            };
            let reading = self.serve(source)?;
            if reading.more {
                self.enqueue(source)?;
            }
            if reading.event.is_some() {
                return Ok(reading.event);
            }
        }
        Ok(None)
    }

    fn serve(&mut self, source: Source) -> Result<Reading, Failure>
        ensures size { IfOk result (λ reading. IfSome reading.event HasPieceSize) }
    {
        match source {
            Source::Clients | Source::Hidden => self.join(source),
            Source::Client(conn) => Ok(self.streams.read(conn)?),
            _ => Ok(Reading::nothing()),
        }
    }

    /// Takes in a client who comes at this door, with a connection that leads it on. Where the manager's
    /// socket refuses, the client is dropped. Where all places are taken, and none of a stranger's is free
    /// yet, it waits at the door.
    fn join(&mut self, door: Source) -> Result<Reading, Failure>
        ensures size { IfOk result (λ reading. IfSome reading.event HasPieceSize) }
    {
        if self.streams.place() == Place::Later {
            self.stalled = true;
            return Ok(Reading::nothing());
        }
        match self.doors.next_client(door) {
            Ok(near) => {
                match UnixStream::connect(&self.rt, self.to.as_str()) {
                    Ok(far) => self.streams.add(self.poll.registry(), near, far)?,
                    Err(_refused) => {}
                }
                Ok(Reading::later())
            }
            Err(error) => Ok(self.not_accepted(&error)?),
        }
    }

    /// Where the system can't give another connection, a stranger makes way; without one the doors are left
    /// until the pause is over.
    fn not_accepted(&mut self, error: &io::Error) -> Result<Reading, NoMemory>
        ensures size { IfOk result (λ reading. IfSome reading.event HasPieceSize) }
    {
        if would_wait(error) {
            return Ok(Reading::nothing());
        }
        if is_passing(error) {
            return Ok(Reading::later());
        }
        if let Place::Of(stranger) = self.streams.place_in_need() {
            self.streams.lose(stranger)?;
            return Ok(Reading::later());
        }
        self.stalled = true;
        Ok(Reading::nothing())
    }

    pub fn send(&mut self, to: Conn, bytes: &[u8]) -> Result<(), NoMemory> {
        self.streams.send(self.poll.registry(), to, bytes)
    }

    pub fn shut(&mut self, conn: Conn) {
        self.streams.shut(self.poll.registry(), conn);
    }

    /// Removes the file of the door.
    pub fn remove_file(&self) {
        self.doors.remove_file(&self.rt);
    }
}
