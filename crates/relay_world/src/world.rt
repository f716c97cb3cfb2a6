ghost use Rattle.std.specs.Prelude.{◌≡◌};
ghost use Rattle.relay_world.specs.Untold.{world_outside};

use crate::links::PairLinks;
use program_frame::StandardConsole;
use sm_world::{Conn, Console, Event, Failure, Links, Told};

/// The outside of a relay: its connections and its console. What happens there is told to nobody; each
/// fault is counted.
#[derive(Drop)]
pub struct RelayWorld {
    links: PairLinks,
    console: StandardConsole,
}

impl RelayWorld {
    /// Nothing is opened yet. Where it is private, nobody can connect to the abstract name.
    pub fn new(rt: HostRuntime, is_private: bool) -> RelayWorld {
        RelayWorld {
            links: PairLinks::new(rt, is_private),
            console: StandardConsole::new(rt),
        }
    }

    /// Closes the connections and removes the socket's file.
    pub fn close(&mut self)
        ensures untouched { world_outside self.new ≡ world_outside self.old }
    {
        self.links.close();
    }
}

impl Told for RelayWorld {
    ghost outside = { world_outside };
}

impl Links for RelayWorld {
    fn listen(&mut self, socket: &str, to: &str) -> Result<(), Failure> {
        self.links.listen(socket, to)
    }

    fn next(&mut self) -> Result<Event, Failure> {
        self.links.next()
    }

    fn send(&mut self, to: Conn, bytes: &[u8]) -> Result<(), Failure> {
        self.links.send(to, bytes)
    }

    fn shut(&mut self, to: Conn) -> Result<(), Failure> {
        self.links.shut(to)
    }
}

impl Console for RelayWorld {
    fn read(&mut self, into: &mut [u8]) -> Result<usize, Failure> {
        self.console.read(into)
    }

    fn print(&mut self, bytes: &[u8]) -> Result<(), Failure> {
        self.console.print(bytes)
    }
}
