ghost use Rattle.std.specs.Prelude.{◌≡◌, ◌≤◌, [], ◌∷◌, length, IfOk};
ghost use Rattle.sm_world.specs.Disk.{has_failed, UsesDisk};
ghost use Rattle.sm_world.specs.Outside.{adds, on_ok};
ghost use Rattle.sm_world.specs.declared.effects.Effect.TheVariants.{Published};
ghost use Rattle.state_saver.specs.Files.{Fetched, Holds, fetches};

use owned_lists::Octets;
use sm_world::{Failure, Told};

/// How many bytes a file that is fetched can have at most.
pub const FILE_LIMIT: usize = 65_536;

/// Files that are read and replaced whole. Their faults are counted as those of the disk.
pub trait Files: Told {
    /// All that was fetched so far. Whoever else writes the files, this is what they gave.
    ghost fetched: { Self → Fetched };

    /// Reads the file at this path, which may have at most 65,536 bytes; a longer one is a fault.
    fn fetch(&mut self, path: &str) -> Result<Octets, Failure>
        ensures limit { IfOk result (λ bytes. length bytes ≤ 65536) }
        ensures bytes { IfOk result (Holds (Self.outside self.old) path.now) }
        ensures fetched { fetched self.new ≡ fetches (fetched self.old) path.now result }
        ensures effects { (Self.outside self.new).told ≡ (Self.outside self.old).told }
        ensures size { (Self.outside self.new).size ≡ (Self.outside self.old).size }
        ensures uses { UsesDisk (Self.outside self.old) (Self.outside self.new) (has_failed result) };

    /// Replaces a file by these bytes.
    fn publish(&mut self, path: &str, bytes: &[u8]) -> Result<(), Failure>
        ensures fetched { fetched self.new ≡ fetched self.old }
        ensures effects { (Self.outside self.new).told
            ≡ adds (Self.outside self.old).told (on_ok result (Published path.now bytes.now ∷ [])) }
        ensures size { (Self.outside self.new).size ≡ (Self.outside self.old).size }
        ensures uses { UsesDisk (Self.outside self.old) (Self.outside self.new) (has_failed result) };
}
