ghost use Rattle.std.specs.Prelude.{◌≡◌, ◌≤◌, length, IfOk};
ghost use Rattle.sm_world.specs.Outside.{UsesLinks};
ghost use Rattle.client_peer.specs.Peers.{Fetches};

use owned_lists::Octets;
use sm_world::{Failure, Told};
use std::alloc::Global;

/// The connection to an outer manager, which has the number 0 in events and effects, and the file that
/// its cookie is read from. What comes on it is heard by `Links::next`, and it is sent to and shut as
/// any connection; its faults are counted as those of the links.
pub trait Outer: Told {
    /// Connects to the outer manager's socket at this path. From then on the links may bring pieces on
    /// the connection 0, and its end.
    fn open_outer(&mut self, path: &str) -> Result<(), Failure>
        ensures effects { (Self.outside self.new).told ≡ (Self.outside self.old).told }
        ensures coming { (Self.outside self.new).coming ≡ (Self.outside self.old).coming }
        ensures uses { UsesLinks (Self.outside self.old) (Self.outside self.new) result };

    /// Reads the file at this path, which may have at most 65,536 bytes; a longer one is a fault.
    fn fetch(&mut self, alloc: Global, path: &str) -> Result<Octets, Failure>
        ensures limit { IfOk result (λ bytes. length bytes ≤ 65536) }
        ensures bytes { Fetches (Self.outside self.old).files path.now result }
        ensures effects { (Self.outside self.new).told ≡ (Self.outside self.old).told }
        ensures coming { (Self.outside self.new).coming ≡ (Self.outside self.old).coming }
        ensures uses { UsesLinks (Self.outside self.old) (Self.outside self.new) result };
}
