ghost use Rattle.std.specs.Prelude.{◌≡◌, ◌≤◌, ◌+◌, length, [], ◌∷◌, is_err, IfOk, OnOk, OnErr};
ghost use Rattle.sm_world.specs.Disk.{has_failed, HasToldSize, IsFailedWrite, IsFailedSync, MayRead, KeepsToldSize, UsesDisk};
ghost use Rattle.sm_world.specs.Outside.{Added, adds, on_ok};
ghost use Rattle.sm_world.specs.declared.effects.Effect.TheVariants.{Wrote, Synced, Published};

use crate::{Failed, Failure, Told};

/// The store, a file of fixed size, and small files that are replaced whole.
pub trait Disk: Told {
    /// Takes the store's file at this path.
    fn attach(&mut self, path: &str) -> Result<(), Failure>
        ensures effects { (Self.outside self.new).told ≡ (Self.outside self.old).told }
        ensures size { KeepsToldSize (Self.outside self.old) (Self.outside self.new) }
        ensures uses { UsesDisk (Self.outside self.old) (Self.outside self.new) (has_failed result) };

    /// How many bytes the file has.
    fn size(&mut self) -> Result<u64, Failure>
        ensures effects { (Self.outside self.new).told ≡ (Self.outside self.old).told }
        ensures size { KeepsToldSize (Self.outside self.old) (Self.outside self.new) }
        ensures answer { IfOk result (λ n. n ≡ (Self.outside self.new).size) }
        ensures uses { UsesDisk (Self.outside self.old) (Self.outside self.new) (has_failed result) };

    /// Fills the buffer with the bytes that stand at a place.
    fn read_at(&mut self, at: u64, into: &mut [u8]) -> Result<(), Failure>
        requires { at + length into.old ≤ (Self.outside self.old).size }
        ensures effects { (Self.outside self.new).told ≡ (Self.outside self.old).told }
        ensures size { (Self.outside self.new).size ≡ (Self.outside self.old).size }
        ensures bytes { OnOk result (MayRead (Self.outside self.old) at into.new) }
        ensures uses { UsesDisk (Self.outside self.old) (Self.outside self.new) (has_failed result) };

    /// Writes these bytes at a place. What a failed write of two or more bytes left there is not
    /// known; a failed write of one byte wrote nothing.
    fn write_at(&mut self, at: u64, bytes: &[u8]) -> Result<(), Failed>
        requires { at + length bytes.now ≤ (Self.outside self.old).size }
        ensures ok { OnOk result ((Self.outside self.new).told
            ≡ adds (Self.outside self.old).told (Wrote at bytes.now ∷ [])) }
        ensures err { OnErr result
            (Added (Self.outside self.old).told (Self.outside self.new).told
            (IsFailedWrite at (length bytes.now))) }
        ensures size { (Self.outside self.new).size ≡ (Self.outside self.old).size }
        ensures uses { UsesDisk (Self.outside self.old) (Self.outside self.new) (is_err result) };

    /// Waits until all that was written is on the disk.
    fn sync(&mut self) -> Result<(), Failed>
        ensures ok { OnOk result ((Self.outside self.new).told
            ≡ adds (Self.outside self.old).told (Synced ∷ [])) }
        ensures err { OnErr result
            (Added (Self.outside self.old).told (Self.outside self.new).told IsFailedSync) }
        ensures size { (Self.outside self.new).size ≡ (Self.outside self.old).size }
        ensures uses { UsesDisk (Self.outside self.old) (Self.outside self.new) (is_err result) };

    /// Replaces a small file by these bytes.
    fn publish(&mut self, path: &str, bytes: &[u8]) -> Result<(), Failure>
        ensures effects { (Self.outside self.new).told
            ≡ adds (Self.outside self.old).told (on_ok result (Published path.now bytes.now ∷ [])) }
        ensures size { (Self.outside self.new).size ≡ (Self.outside self.old).size }
        ensures uses { UsesDisk (Self.outside self.old) (Self.outside self.new) (has_failed result) };

    // A law: a file that is told had the told size when it began.
    ghost sized: { (disk : Self) → HasToldSize (Self.outside disk) };
}
