ghost use Rattle.std.specs.Prelude.{◌≡◌, ◌≤◌, length, [], ◌∷◌, IfOk};
ghost use Rattle.sm_world.specs.Events.{HasPieceSize};
ghost use Rattle.sm_world.specs.Outside.{Outside, adds, on_ok, of_ok, UsesLinks, UsesSpawner, UsesConsole, TakesNext, Reads};
ghost use Rattle.sm_world.specs.declared.effects.Effect.TheVariants.{Heard, Sent, Shut, Started, Printed};

use crate::{Conn, Event, Failure};
use owned_lists::{Command, NoMemory};

/// What a world tells of itself to contracts: the effects so far, how often each device failed,
/// and what is still to come. The traits over it each change their own part.
pub trait Told {
    ghost outside: { Self → Outside };
}

/// The connections of the clients.
pub trait Links: Told {
    /// Opens the socket of the clients and that of the operator's orders at these paths.
    fn listen(&mut self, socket: &str, control: &str) -> Result<(), Failure>
        ensures effects { (Self.outside self.new).told ≡ (Self.outside self.old).told }
        ensures coming { (Self.outside self.new).coming ≡ (Self.outside self.old).coming }
        ensures uses { UsesLinks (Self.outside self.old) (Self.outside self.new) result };

    /// The next event; this waits for it.
    fn next(&mut self) -> Result<Event, Failure>
        ensures effects { (Self.outside self.new).told
            ≡ adds (Self.outside self.old).told (of_ok Heard result) }
        ensures coming { TakesNext (Self.outside self.old).coming
            (Self.outside self.new).coming result }
        ensures size { IfOk result HasPieceSize }
        ensures uses { UsesLinks (Self.outside self.old) (Self.outside self.new) result };

    /// Sends all of these bytes on a connection.
    fn send(&mut self, to: Conn, bytes: &[u8]) -> Result<(), Failure>
        ensures effects { (Self.outside self.new).told
            ≡ adds (Self.outside self.old).told (on_ok result (Sent to bytes.now ∷ [])) }
        ensures coming { (Self.outside self.new).coming ≡ (Self.outside self.old).coming }
        ensures uses { UsesLinks (Self.outside self.old) (Self.outside self.new) result };

    /// Closes a connection.
    fn shut(&mut self, to: Conn) -> Result<(), Failure>
        ensures effects { (Self.outside self.new).told
            ≡ adds (Self.outside self.old).told (on_ok result (Shut to ∷ [])) }
        ensures coming { (Self.outside self.new).coming ≡ (Self.outside self.old).coming }
        ensures uses { UsesLinks (Self.outside self.old) (Self.outside self.new) result };
}

/// The programs of the session.
pub trait Spawner: Told {
    /// Starts a program and doesn't wait for its end; false where that failed.
    fn start(&mut self, command: &Command) -> Result<bool, NoMemory>
        ensures effects { (Self.outside self.new).told
            ≡ adds (Self.outside self.old).told (of_ok (Started command.now) result) }
        ensures uses { UsesSpawner (Self.outside self.old) (Self.outside self.new) result };
}

/// The operator's input and output.
pub trait Console: Told {
    /// Reads some bytes, and says how many. None for a buffer that has room is the end of input.
    fn read(&mut self, into: &mut [u8]) -> Result<usize, Failure>
        ensures within { IfOk result (λ n. n ≤ length into.old) }
        ensures effects { (Self.outside self.new).told ≡ (Self.outside self.old).told }
        ensures input { Reads (Self.outside self.old).input
            (Self.outside self.new).input into.old into.new result }
        ensures uses { UsesConsole (Self.outside self.old) (Self.outside self.new) result };

    /// Prints all of these bytes.
    fn print(&mut self, bytes: &[u8]) -> Result<(), Failure>
        ensures effects { (Self.outside self.new).told
            ≡ adds (Self.outside self.old).told (on_ok result (Printed bytes.now ∷ [])) }
        ensures input { (Self.outside self.new).input ≡ (Self.outside self.old).input }
        ensures uses { UsesConsole (Self.outside self.old) (Self.outside self.new) result };
}
