ghost use Rattle.std.specs.Prelude.{◌≡◌, ◌≤◌, [], ◌∷◌, length, take, drop, IfOk};
ghost use Rattle.sm_world.specs.Outside.{adds, on_ok, of_ok, UsesLinks};
ghost use Rattle.sm_world.specs.declared.effects.Effect.TheVariants.{Heard, Sent};
ghost use Rattle.client_peer.specs.Peers.{received, Fetches};

use owned_lists::Octets;
use sm_world::{Failure, Told};

/// How many bytes a file that is fetched can have at most.
pub const FILE_LIMIT: usize = 65_536;

/// The connection to a manager, which has the number 0 in effects, and the files that a client
/// reads. All its faults are counted as those of the links.
pub trait Peer: Told {
    /// Connects to the manager's socket at this path.
    fn connect(&mut self, path: &str) -> Result<(), Failure>
        ensures effects { (Self.outside self.new).told ≡ (Self.outside self.old).told }
        ensures coming { (Self.outside self.new).coming ≡ (Self.outside self.old).coming }
        ensures uses { UsesLinks (Self.outside self.old) (Self.outside self.new) result };

    /// Reads some bytes of the manager's stream, and says how many; this waits for them. There must
    /// be room for at least one byte and at most 65,536. None is the stream's end.
    fn receive(&mut self, into: &mut [u8]) -> Result<usize, Failure>
        requires some { 1 ≤ length into.old }
        requires few { length into.old ≤ 65536 }
        ensures within { IfOk result (λ n. n ≤ length into.old) }
        ensures rest { IfOk result (λ n. drop n into.new ≡ drop n into.old) }
        ensures effects { (Self.outside self.new).told
            ≡ adds (Self.outside self.old).told (of_ok (λ n.
            Heard (received (take n into.new))) result) }
        ensures coming { (Self.outside self.new).coming ≡ (Self.outside self.old).coming }
        ensures uses { UsesLinks (Self.outside self.old) (Self.outside self.new) result };

    /// Sends all of these bytes to the manager.
    fn deliver(&mut self, bytes: &[u8]) -> Result<(), Failure>
        ensures effects { (Self.outside self.new).told
            ≡ adds (Self.outside self.old).told (on_ok result (Sent 0 bytes.now ∷ [])) }
        ensures coming { (Self.outside self.new).coming ≡ (Self.outside self.old).coming }
        ensures uses { UsesLinks (Self.outside self.old) (Self.outside self.new) result };

    /// Reads the file at this path, which may have at most 65,536 bytes; a longer one is a fault.
    fn fetch(&mut self, path: &str) -> Result<Octets, Failure>
        ensures limit { IfOk result (λ bytes. length bytes ≤ 65536) }
        ensures bytes { Fetches (Self.outside self.old).files path.now result }
        ensures effects { (Self.outside self.new).told ≡ (Self.outside self.old).told }
        ensures coming { (Self.outside self.new).coming ≡ (Self.outside self.old).coming }
        ensures uses { UsesLinks (Self.outside self.old) (Self.outside self.new) result };
}
