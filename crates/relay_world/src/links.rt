ghost use Rattle.std.specs.Prelude.{◌≡◌, ◌≤◌, IsErrOf};
ghost use Rattle.sm_world.specs.Outside.{Rose};
ghost use Rattle.relay_world.specs.Untold.{links_outside};

use crate::doors::Doors;
use crate::sockets::Sockets;
use owned_lists::NoMemory;
use sm_world::{Conn, Event, Failure, Links, Told};
use std::io;
use unix_links::{control_fault, path_fault, refused};

/// The connections of a relay. What goes through them is told to nobody; each fault is counted.
///
/// Each client that comes gets a connection of its own to the manager's socket: the k-th has the number
/// 2k - 1, and its connection to the manager 2k. Where that one is refused, the client is dropped, and
/// nobody is told of it. Who hasn't shown the manager's cookie yet makes way for those who come, and is
/// dropped after ten seconds, as a manager does it. A connection for which more than 1,048,576 bytes would wait is dropped, and
/// then gone. One that is shut still gets what was sent on it, and is read on, unheard, until the peer
/// closes it or a second has passed.
#[derive(Drop)]
pub struct PairLinks {
    rt: HostRuntime,
    /// Nobody can connect to the abstract name.
    is_private: bool,
    sockets: Option<Sockets>,
    faults: u64,
}

impl PairLinks {
    /// Nobody is listened to yet. Where they are private, nobody will be who comes by the abstract name.
    pub fn new(rt: HostRuntime, is_private: bool) -> PairLinks {
        PairLinks {
            rt,
            is_private,
            sockets: None,
            faults: 0,
        }
    }

    /// Removes the socket's file, and closes all connections.
    pub fn close(&mut self)
        ensures untouched { links_outside self.new ≡ links_outside self.old }
    {
        if let Some(sockets) = &mut self.sockets {
            sockets.remove_file();
        }
        self.sockets = None;
    }

    fn open(&mut self, socket: &str, to: &str) -> Result<(), Failure>
        ensures same { self.new.faults ≡ self.old.faults }
    {
        if let Some(fault) = path_fault(socket) {
            let _ = eprintln!(self.rt; "smrelay: cannot listen at {socket}: {fault}");
            return Err(Failure::Failed);
        }
        if let Some(fault) = control_fault(to) {
            let _ = eprintln!(self.rt; "smrelay: cannot connect to {to}: {fault}");
            return Err(Failure::Failed);
        }
        let far = to.to_string(self.rt.alloc()).map_err(NoMemory::from)?;
        let doors = match Doors::open(self.rt, socket, self.is_private) {
            Ok(doors) => doors,
            Err(error) => return Err(self.report(socket, error)),
        };
        if doors.is_at(&self.rt, to) {
            doors.remove_file(&self.rt);
            let _ = eprintln!(self.rt; "smrelay: {to} is the relay's own socket");
            return Err(Failure::Failed);
        }
        match Sockets::new(self.rt, doors, far) {
            Ok(sockets) => {
                self.sockets = Some(sockets);
                Ok(())
            }
            Err(error) => Err(self.report(socket, error)),
        }
    }

    /// Tells the user why nobody listens at a path.
    fn report(&self, path: &str, error: io::Error) -> Failure {
        let _ = eprintln!(self.rt; "smrelay: cannot listen at {path}: {error}");
        refused(error)
    }

    /// Counts a fault, where the answer is one.
    fn count<T>(&mut self, answer: Result<T, Failure>) -> Result<T, Failure>
        ensures same { result ≡ answer }
        ensures cause { IsErrOf result Failure.Failed → Rose self.old.faults self.new.faults }
        ensures not_fallen { self.old.faults ≤ self.new.faults }
    {
        if matches!(&answer, Err(Failure::Failed)) {
            self.faults = self.faults.saturating_add(1);
        }
        answer
    }
}

impl Told for PairLinks {
    ghost outside = { links_outside };
}

impl Links for PairLinks {
    /// Opens the relay's socket, at which clients come, and leads them to the other one.
    fn listen(&mut self, socket: &str, to: &str) -> Result<(), Failure> {
        let answer = self.open(socket, to);
        self.count(answer)
    }

    fn next(&mut self) -> Result<Event, Failure> {
        let answer = match &mut self.sockets {
            Some(sockets) => sockets.next(),
            None => Err(Failure::Failed),
        };
        self.count(answer)
    }

    fn send(&mut self, to: Conn, bytes: &[u8]) -> Result<(), Failure> {
        if let Some(sockets) = &mut self.sockets {
            sockets.send(to, bytes)?;
        }
        Ok(())
    }

    fn shut(&mut self, to: Conn) -> Result<(), Failure> {
        if let Some(sockets) = &mut self.sockets {
            sockets.shut(to);
        }
        Ok(())
    }
}
