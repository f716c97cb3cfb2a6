ghost use Rattle.std.specs.Prelude.{◌≡◌, ◌≤◌, ◌+◌, ◌++◌, ◌∷◌, [], List, IfOk, IsErrOf};
ghost use Rattle.sm_world.specs.Events.{HasPieceSize};
ghost use Rattle.sm_world.specs.Outside.{Rose, UsesLinks};
ghost use Rattle.world_time.specs.Timely.{Given, IsTimely, Moment, moments_of, passed_by};
ghost use Rattle.unix_links.specs.Clocks.{clock, given_at};
ghost use Rattle.unix_links.specs.Untold.{links_outside};

use crate::doors::{Doors, Refusal};
use crate::options::LinkOptions;
use crate::paths::path_fault;
use crate::reading::refused;
use crate::sockets::Sockets;
use owned_lists::NoMemory;
use session_watch::Excusing;
use sm_world::{Conn, Event, Failure, Links, Told};
use std::io;
use std::io::ErrorKind;
use world_time::{Hours, Ticking};

/// The clients at a Unix socket, the operators at another, and the connection to an outer manager,
/// where one is opened. What goes through them is told to nobody; each fault is counted.
///
/// Clients have the numbers from 1 on, and the outer manager has 0. What is sent goes out when the next
/// event is asked for, when `flush` asks for that, when the connection is shut, or at the end. A connection for which more than
/// 1,048,576 bytes would wait is dropped, and then gone. One that is shut still gets what was sent on it,
/// and is read on, unheard, until the peer closes it or a second has passed.
///
/// Time is told while a client is waited for that has a patience, and while it is wanted: by a tick every
/// 250 milliseconds, and by one before somebody is heard. Else `next` waits without an end.
#[derive(Drop)]
pub struct SocketLinks {
    rt: HostRuntime,
    options: LinkOptions,
    sockets: Option<Sockets>,
    hours: Hours,
    /// Whether somebody above waits for time.
    wanted: bool,
    faults: u64,
}

impl SocketLinks {
    /// Nobody is listened to yet.
    pub fn new(rt: HostRuntime) -> SocketLinks {
        SocketLinks::with_options(rt, LinkOptions::new())
    }

    /// The same, with what was chosen.
    pub fn with_options(rt: HostRuntime, options: LinkOptions) -> SocketLinks {
        SocketLinks {
            rt,
            options,
            sockets: None,
            hours: Hours::new(),
            wanted: false,
            faults: 0,
        }
    }

    /// Sends a line to the operator whose order was the last event, where it was an order and its
    /// operator is still there.
    pub fn answer(&mut self, line: &[u8])
        ensures untouched { links_outside self.new ≡ links_outside self.old }
    {
        if let Some(sockets) = &mut self.sockets {
            sockets.answer(line);
        }
    }

    /// Hands the system what was sent since the last event. It is for who does something next that
    /// others see.
    pub fn flush(&mut self) -> Result<(), NoMemory>
        ensures untouched { links_outside self.new ≡ links_outside self.old }
        ensures time { (moments : List Moment) → IsTimely (clock self.old) moments →
            IsTimely (clock self.new) (moments ++ Given (given_at self.new) ∷ []) }
    {
        self.give()
    }

    /// Hands the system what was sent, where somebody is listened to.
    fn give(&mut self) -> Result<(), NoMemory>
        ensures untouched { links_outside self.new ≡ links_outside self.old }
        ensures past { self.old.hours.read ≤ self.new.hours.read }
        ensures given { self.new.hours.given ≤ self.new.hours.read }
    {
        match &mut self.sockets {
            Some(sockets) => sockets.flush(&mut self.hours),
            None => Ok(()),
        }
    }

    /// Removes the sockets' files, and closes all sockets. Connections that were shut have the rest of
    /// their second before.
    pub fn close(&mut self)
        ensures untouched { links_outside self.new ≡ links_outside self.old }
    {
        if let Some(sockets) = &mut self.sockets {
            sockets.remove_files();
            sockets.finish(&mut self.hours);
        }
        self.sockets = None;
    }

    /// Connects to the outer manager's socket at this path. Of this connection the links bring pieces,
    /// and its end once, but not that it has begun; it is sent to and shut as any other. Where nobody
    /// is listened to yet, this is a fault.
    pub fn open_outer(&mut self, path: &str) -> Result<(), Failure>
        ensures uses { UsesLinks (links_outside self.old) (links_outside self.new) result }
    {
        let answer = self.lead_out(path);
        self.count(answer)
    }

    fn lead_out(&mut self, path: &str) -> Result<(), Failure>
        ensures same { self.new.faults ≡ self.old.faults }
    {
        let opened = match &mut self.sockets {
            Some(sockets) => sockets.open_outer(path),
            None => Err(io::Error::from(ErrorKind::NotConnected)),
        };
        match opened {
            Ok(()) => Ok(()),
            Err(error) => {
                let _ = eprintln!(self.rt; "smnest: cannot connect to {path}: {error}");
                Err(refused(error))
            }
        }
    }

    fn open(&mut self, socket: &str, control: &str) -> Result<(), Failure>
        ensures same { self.new.faults ≡ self.old.faults }
    {
        if let Some(fault) = path_fault(socket) {
            let _ = eprintln!(self.rt; "smd: cannot listen at {socket}: {fault}");
            return Err(Failure::Failed);
        }
        match Doors::open(self.rt, socket, control, self.options) {
            Ok(doors) => match Sockets::new(self.rt, doors, self.options) {
                Ok(sockets) => {
                    self.sockets = Some(sockets);
                    self.hours = Hours::new();
                    Ok(())
                }
                Err(error) => Err(self.report(socket, error)),
            },
            Err(Refusal { path, error }) => Err(self.report(path, error)),
        }
    }

    /// Tells the user why nobody listens at a path.
    fn report(&self, path: &str, error: io::Error) -> Failure {
        let _ = eprintln!(self.rt; "smd: cannot listen at {path}: {error}");
        refused(error)
    }

    /// The next event, as `next` gives it. Behind each thing that a client was given or said, the ticks
    /// tell no more than what went by on the clock since.
    pub fn hear(&mut self) -> Result<Event, Failure>
        ensures size { IfOk result HasPieceSize }
        ensures uses { UsesLinks (links_outside self.old) (links_outside self.new) result }
        ensures time { (moments : List Moment) → IsTimely (clock self.old) moments →
            IsTimely (clock self.new) (moments ++ Given (given_at self.new) ∷ moments_of (clock self.new) result) }
        ensures most { passed_by result ≤ 500 }
    {
        let answer = self.take_next();
        self.count(answer)
    }

    /// The next event of the sockets, where somebody is listened to.
    fn take_next(&mut self) -> Result<Event, Failure>
        ensures size { IfOk result HasPieceSize }
        ensures past { self.old.hours.read + passed_by result ≤ self.new.hours.read }
        ensures given { self.new.hours.given + passed_by result ≤ self.new.hours.read }
        ensures most { passed_by result ≤ 500 }
        ensures same { self.new.faults ≡ self.old.faults }
    {
        match &mut self.sockets {
            Some(sockets) => sockets.next(&mut self.hours, self.wanted),
            None => Err(Failure::Failed),
        }
    }

    /// Sends all of these bytes on a connection, as `send` does.
    pub fn say(&mut self, to: Conn, bytes: &[u8]) -> Result<(), Failure>
        ensures uses { UsesLinks (links_outside self.old) (links_outside self.new) result }
        ensures time { (moments : List Moment) → IsTimely (clock self.old) moments →
            IsTimely (clock self.new) moments }
    {
        if let Some(sockets) = &mut self.sockets {
            sockets.send(&mut self.hours, to, bytes)?;
        }
        Ok(())
    }

    /// Counts a fault, where the answer is one.
    pub fn count<T>(&mut self, answer: Result<T, Failure>) -> Result<T, Failure>
        ensures same { result ≡ answer }
        ensures uses { UsesLinks (links_outside self.old) (links_outside self.new) result }
        ensures cause { IsErrOf result Failure.Failed → Rose self.old.faults self.new.faults }
        ensures not_fallen { self.old.faults ≤ self.new.faults }
        ensures hours { self.new.hours ≡ self.old.hours }
    {
        if matches!(&answer, Err(Failure::Failed)) {
            self.faults = self.faults.saturating_add(1);
        }
        answer
    }
}

impl Told for SocketLinks {
    ghost outside = { links_outside };
}

impl Ticking for SocketLinks {
    fn keep_ticking(&mut self, wanted: bool) {
        self.wanted = wanted;
    }
}

impl Links for SocketLinks {
    fn listen(&mut self, socket: &str, control: &str) -> Result<(), Failure> {
        let answer = self.open(socket, control);
        self.count(answer)
    }

    fn next(&mut self) -> Result<Event, Failure> {
        self.hear()
    }

    fn send(&mut self, to: Conn, bytes: &[u8]) -> Result<(), Failure> {
        self.say(to, bytes)
    }

    fn shut(&mut self, to: Conn) -> Result<(), Failure> {
        if let Some(sockets) = &mut self.sockets {
            sockets.shut(to);
        }
        Ok(())
    }
}

impl Excusing for SocketLinks {
    fn excuse(&mut self, conn: Conn, excused: bool) {
        if let Some(sockets) = &mut self.sockets {
            sockets.excuse(conn, excused);
        }
    }
}
