ghost use Rattle.std.specs.Prelude.{◌≤◌, ◌+◌, IfOk, IfSome};
ghost use Rattle.sm_world.specs.Events.{HasPieceSize};
ghost use Rattle.unix_links.specs.Arrivals.{IsArrival};
ghost use Rattle.world_time.specs.Timely.{passed_by};

use crate::clients::{Clients, OUTER};
use crate::doors::Doors;
use crate::operators::Operators;
use crate::options::LinkOptions;
use crate::reading::{Reading, is_passing, refused, would_wait};
use crate::sources::Source;
use mio::net::UnixStream;
use mio::{Events, Poll, Registry};
use owned_lists::NoMemory;
use sm_world::{Conn, Event, Failure};
use std::collections::VecDeque;
use std::io;
use std::os::unix::net;
use std::time::{Duration, Instant};
use stream_watch::Place;
use world_time::Hours;

/// How many milliseconds lie between two ticks while somebody waits for time, and between two looks for
/// those who have had theirs.
const TICK: u64 = 250;

/// How many milliseconds somebody waits at the door at a time while all places are taken.
const MOMENT: u64 = 10;

/// How many ready sources the system tells of at once.
const READY: usize = 128;

/// The doors, all who came in, and the connection to an outer manager. Those who may have something
/// stand in a queue, each once; a turn serves each of them once, and between two turns the system is
/// asked who else is ready.
#[derive(Drop)]
pub struct Sockets {
    rt: HostRuntime,
    poll: Poll,
    events: Events,
    doors: Doors,
    clients: Clients,
    operators: Operators,
    queue: VecDeque<Source>,
    /// How many of the queue are served before the system is asked again.
    turn: usize,
    /// A connection couldn't be taken in. The doors are tried again at the next look.
    stalled: bool,
    /// When the doors are tried again at which somebody may wait for a stranger's place.
    again: Option<u64>,
    options: LinkOptions,
    begun: Instant,
    /// What time it was at the last look for those who have had theirs.
    looked: u64,
}

/// The sooner of two ends of a wait, of which the first may be none.
fn sooner(one: Option<u64>, other: u64) -> Option<u64> {
    match one {
        Some(one) => Some(one.min(other)),
        None => Some(other),
    }
}

impl Sockets {
    /// Waits at these doors.
    pub fn new(rt: HostRuntime, mut doors: Doors, options: LinkOptions) -> io::Result<Sockets> {
        let alloc = rt.alloc();
        let poll = Poll::new(&rt)?;
        let now = Instant::now(&rt)?;
        doors.watch(poll.registry())?;
        Ok(Sockets {
            rt,
            poll,
            events: Events::with_capacity(alloc, READY)?,
            doors,
            clients: Clients::new(alloc)?,
            operators: Operators::new(alloc),
            queue: VecDeque::new(alloc),
            turn: 0,
            stalled: false,
            again: None,
            options,
            begun: now,
            looked: 0,
        })
    }

    /// The next event. The system wakes us as soon as somebody is ready. Before, it is handed what was
    /// sent since the last event. Time is told while a client is waited for that has a patience, and
    /// where it is wanted.
    pub fn next(&mut self, hours: &mut Hours, wanted: bool) -> Result<Event, Failure>
        ensures size { IfOk result HasPieceSize }
        ensures past { hours.old.read + passed_by result ≤ hours.new.read }
        ensures given { hours.new.given + passed_by result ≤ hours.new.read }
        ensures most { passed_by result ≤ 500 }
    {
        self.operators.forget();
        self.flush(hours)?;
        // What was listened before somebody was heard isn't told behind that.
        hours.forget();
        for _ in 0..u64::MAX {
            if let Some(event) = self.take()? {
                return Ok(event);
            }
            self.wait(hours, wanted)?;
            if self.is_due(hours, wanted) {
                return Ok(Event::Tick(hours.tell()));
            }
        }
        Err(Failure::Failed)
    }

    /// What the clock shows.
    fn clock(&self) -> io::Result<u64> {
        let now = Instant::now(&self.rt)?;
        Ok(milliseconds(self.begun, now))
    }

    /// Whether somebody waits for time: a client is waited for that has a patience, or it is wanted.
    fn is_timed(&self, wanted: bool) -> bool {
        wanted || (self.options.patience > 0 && self.clients.are_awaited())
    }

    /// Whether time is told: before those are heard who are ready, and where nobody is, each quarter of a
    /// second. Who is ready and has been silent for the patience is heard first.
    fn is_due(&self, hours: &Hours, wanted: bool) -> bool {
        if hours.untold() == 0 || !self.is_timed(wanted) {
            return false;
        }
        if self.is_ready() {
            !self.is_late_one_ready()
        } else {
            hours.untold() >= TICK
        }
    }

    /// Whether somebody may have something.
    fn is_ready(&self) -> bool {
        !self.queue.is_empty() || self.clients.has_news()
    }

    /// Whether a client may have something that has been silent for the patience.
    fn is_late_one_ready(&self) -> bool {
        let patience = self.options.patience;
        patience > 0
            && self.queue.iter().any(|source| match source {
                Source::Client(conn) => self.clients.is_silent(*conn, patience),
                _ => false,
            })
    }

    /// Whether somebody is there who is to go when the time has come, or a door is to be tried again.
    fn is_restless(&self) -> bool {
        let lingers = self.options.last_wait > 0 && self.clients.lingering(0).is_some();
        let strange = self.clients.place_in_need() != Place::Free;
        lingers || strange || self.stalled || self.clients.has_leavers()
    }

    /// How many milliseconds may be waited; without an end where nobody waits for time.
    fn limit(&self, hours: &Hours, wanted: bool) -> Option<u64> {
        if self.is_ready() {
            return Some(0);
        }
        let mut limit = None;
        if self.is_timed(wanted) {
            limit = Some(TICK.saturating_sub(hours.untold()));
        }
        if self.is_restless() {
            limit = sooner(limit, TICK);
        }
        match self.again {
            Some(again) => sooner(limit, again.saturating_sub(hours.awake())),
            None => limit,
        }
    }

    /// Waits until somebody is ready, and puts all who are into the queue.
    fn wait(&mut self, hours: &mut Hours, wanted: bool) -> Result<(), Failure>
        ensures past { hours.old.since ≤ hours.new.since }
    {
        let before = hours.awake();
        self.look(before)?;
        let time = match self.limit(hours, wanted) {
            Some(limit) => Some(Duration::from_millis(limit)),
            None => None,
        };
        self.poll.poll(&mut self.events, time).map_err(refused)?;
        let now = self.clock().map_err(refused)?;
        hours.listen(now);
        self.clients.set_time(hours);
        self.clients.pass(hours.awake().saturating_sub(before));
        self.note_all()
    }

    /// Notes whom the system told of.
    fn note_all(&mut self) -> Result<(), Failure> {
        for event in self.events.iter() {
            note(
                self.poll.registry(),
                &mut self.clients,
                &mut self.queue,
                event,
            )?;
        }
        self.turn = self.queue.len();
        Ok(())
    }

    /// Tries the doors again where it is time to, and each quarter of a second drops those who have had
    /// their time. Whoever was ready has been heard by then.
    fn look(&mut self, now: u64) -> Result<(), NoMemory> {
        if self.again.is_some_and(|again| again <= now) {
            self.again = None;
            self.enqueue_doors()?;
        }
        if now.saturating_sub(self.looked) < TICK {
            return Ok(());
        }
        self.looked = now;
        self.clients.drop_overdue()?;
        self.drop_lingering()?;
        if self.stalled {
            self.stalled = false;
            self.enqueue_doors()?;
        }
        Ok(())
    }

    fn enqueue_doors(&mut self) -> Result<(), NoMemory> {
        self.enqueue(Source::Clients)?;
        self.enqueue(Source::Hidden)?;
        self.enqueue(Source::Control)
    }

    /// Drops those who were told to die and have had their time. The user is told of each.
    fn drop_lingering(&mut self) -> Result<(), NoMemory> {
        let wait = self.options.last_wait;
        if wait == 0 {
            return Ok(());
        }
        for _ in 0..u32::MAX {
            let Some(conn) = self.clients.lingering(wait) else {
                break;
            };
            let program = self.clients.program(conn)?;
            let program = str::from_utf8(program.as_slice()).unwrap_or("?");
            let _ = eprintln!(self.rt;
                "smd: {program} was told to die, and its connection {conn} is closed"
            );
            self.clients.lose(conn)?;
        }
        Ok(())
    }

    fn enqueue(&mut self, source: Source) -> Result<(), NoMemory> {
        enqueue(&mut self.clients, &mut self.queue, source)
    }

    /// Serves those whose turn it is until one gives an event.
    fn take(&mut self) -> Result<Option<Event>, Failure>
        ensures size { IfOk result (λ event. IfSome event IsArrival) }
    {
        if let Some(event) = self.clients.next_news() {
            return Ok(Some(event));
        }
        for _ in 0..self.turn {
            self.turn = self.turn.saturating_sub(1);
            let Some(source) = self.queue.pop_front() else {
                return Ok(None);
            };
            let reading = self.serve(source)?;
            if reading.more {
                self.enqueue(source)?;
            }
            if reading.event.is_some() {
                return Ok(reading.event);
            }
        }
        Ok(None)
    }

    fn serve(&mut self, source: Source) -> Result<Reading, Failure>
        ensures size { IfOk result (λ reading. IfSome reading.event IsArrival) }
    {
        match source {
            Source::Clients => self.join(source),
            Source::Hidden => self.join(source),
            Source::Control => self.admit(),
            Source::Client(conn) => Ok(self.clients.read(conn)?),
            Source::Operator(number) => {
                let reading = self.operators.hear(number)?;
                self.tell_who_is_there()?;
                Ok(reading)
            }
        }
    }

    /// Answers the operator who asks who is there, if one does.
    fn tell_who_is_there(&mut self) -> Result<(), NoMemory> {
        if let Some(number) = self.operators.next_asking() {
            let lines = self.clients.lines()?;
            self.operators.write(number, lines.as_slice());
        }
        Ok(())
    }

    /// Whether whoever comes at this door waits there: all places are taken, and none of a stranger's is free
    /// yet; or too many have just come by the name that everybody can reach.
    fn is_shut(&self, door: Source) -> bool {
        self.clients.place() == Place::Later
            || (door == Source::Hidden && self.clients.are_crowding())
    }

    /// Takes in a client who comes at this door, if nobody has to wait there.
    fn join(&mut self, door: Source) -> Result<Reading, Failure>
        ensures size { IfOk result (λ reading. IfSome reading.event IsArrival) }
    {
        if self.is_shut(door) {
            self.wait_at_doors();
            return Ok(Reading::nothing());
        }
        match self.doors.next_client(door) {
            Ok(stream) => {
                if door == Source::Hidden {
                    self.clients.note_comer()?;
                }
                self.clients.add(self.poll.registry(), stream)?;
                Ok(Reading {
                    event: self.clients.next_news(),
                    more: true,
                })
            }
            Err(error) => self.not_accepted(&error),
        }
    }

    fn wait_at_doors(&mut self) {
        self.again = Some(self.clients.time().saturating_add(MOMENT));
    }

    /// Takes in an operator.
    fn admit(&mut self) -> Result<Reading, Failure>
        ensures size { IfOk result (λ reading. IfSome reading.event IsArrival) }
    {
        match self.doors.next_operator() {
            Ok(stream) => {
                self.operators.add(self.poll.registry(), stream)?;
                Ok(Reading::later())
            }
            Err(error) => self.not_accepted(&error),
        }
    }

    /// Where the system can't give another connection, a stranger makes way; without one the doors are
    /// left until the next look.
    fn not_accepted(&mut self, error: &io::Error) -> Result<Reading, Failure>
        ensures size { IfOk result (λ reading. IfSome reading.event IsArrival) }
    {
        if would_wait(error) {
            return Ok(Reading::nothing());
        }
        if is_passing(error) {
            return Ok(Reading::later());
        }
        match self.clients.place_in_need() {
            Place::Of(stranger) => {
                self.clients.lose(stranger)?;
                return Ok(Reading::later());
            }
            Place::Later => self.wait_at_doors(),
            Place::Free => self.stalled = true,
        }
        Ok(Reading::nothing())
    }

    /// Connects to the socket of an outer manager. This waits for a place at its door; what is read and
    /// written then waits for nothing.
    pub fn open_outer(&mut self, path: &str) -> io::Result<()> {
        let stream = net::UnixStream::connect(&self.rt, path)?;
        stream.set_nonblocking(true)?;
        let stream = UnixStream::from_std(stream);
        self.clients.add_outer(self.poll.registry(), stream)
    }

    /// Notes what the clock shows, and something more, as something is given. A clock that can't be read
    /// stands still.
    fn give(&mut self, hours: &mut Hours, more: u64)
        ensures past { hours.old.read ≤ hours.new.read }
    {
        let now = match self.clock() {
            Ok(now) => now,
            Err(_) => hours.read(),
        };
        hours.give(now.saturating_add(more));
        self.clients.set_time(hours);
    }

    /// Sends bytes on a connection. What went by before is nobody's time.
    pub fn send(&mut self, hours: &mut Hours, to: Conn, bytes: &[u8]) -> Result<(), NoMemory>
        ensures past { hours.old.read ≤ hours.new.read }
    {
        if !self.clients.gives() {
            self.give(hours, 0);
        }
        self.clients.send(self.poll.registry(), to, bytes)
    }

    /// Hands the system what was sent since this was called last, as the clock shows it then. Of a
    /// millisecond in which somebody is asked nothing counts as silence.
    pub fn flush(&mut self, hours: &mut Hours) -> Result<(), NoMemory>
        ensures past { hours.old.read ≤ hours.new.read }
    {
        if self.clients.gives() {
            let more = if self.clients.asks() { 1 } else { 0 };
            self.give(hours, more);
        }
        self.clients.flush(self.poll.registry())
    }

    /// Notes whether somebody has answered for a client.
    pub fn excuse(&mut self, conn: Conn, excused: bool) {
        self.clients.excuse(conn, excused);
    }

    pub fn shut(&mut self, conn: Conn) {
        self.clients.shut(self.poll.registry(), conn);
    }

    /// Hands the system what was sent, and waits until the connections that were shut are closed, which
    /// takes a second or two at most, and the one to an outer manager with them. Whatever else comes is
    /// heard by nobody.
    pub fn finish(&mut self, hours: &mut Hours) {
        let _ = self.flush(hours);
        self.shut(OUTER);
        for _ in 0..u64::MAX {
            if !self.clients.has_leavers() || self.go_on(hours).is_err() {
                return;
            }
        }
    }

    /// Serves somebody who is ready, or waits until somebody is while connections that were shut aren't
    /// closed yet.
    fn go_on(&mut self, hours: &mut Hours) -> Result<(), Failure> {
        match self.take()? {
            Some(event) => {
                drop(event);
                Ok(())
            }
            None if self.clients.has_leavers() => self.wait(hours, false),
            None => Ok(()),
        }
    }

    /// Removes the files of the doors.
    pub fn remove_files(&self) {
        self.doors.remove_files(&self.rt);
    }

    /// Sends a line to the operator whose order was the last event.
    pub fn answer(&mut self, line: &[u8]) {
        self.operators.answer(line);
    }
}

/// Notes what the system told of a source.
fn note(
    registry: &Registry,
    clients: &mut Clients,
    queue: &mut VecDeque<Source>,
    event: &mio::event::Event,
) -> Result<(), NoMemory> {
    let source = Source::of(event.token());
    let ends = event.is_read_closed() || event.is_error();
    let takes = event.is_writable();
    if let Source::Client(conn) = source {
        if ends || takes {
            clients.told(registry, conn, ends, takes)?;
        }
    }
    if event.is_readable() || ends {
        enqueue(clients, queue, source)?;
    }
    Ok(())
}

/// Puts a source into the queue, where it doesn't stand there.
fn enqueue(
    clients: &mut Clients,
    queue: &mut VecDeque<Source>,
    source: Source,
) -> Result<(), NoMemory> {
    if !is_queued(clients, queue, source) {
        queue.push_back(source)?;
    }
    Ok(())
}

/// Whether a source stands in the queue. One that doesn't is put there next, which a connection that is
/// open notes, so that the queue needn't be gone through for it.
fn is_queued(clients: &mut Clients, queue: &VecDeque<Source>, source: Source) -> bool {
    if let Source::Client(conn) = source {
        if let Some(was) = clients.set_queued(conn) {
            return was;
        }
    }
    queue.contains(&source)
}

/// How many milliseconds lie between two moments.
fn milliseconds(from: Instant, to: Instant) -> u64 {
    u64::try_from(to.saturating_duration_since(from).as_millis()).unwrap_or(u64::MAX)
}
