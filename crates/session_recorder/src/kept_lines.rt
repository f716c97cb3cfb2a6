ghost use Rattle.std.specs.Prelude.{◌≡◌, ◌||◌, Bool, true, false, is_err, List, ℕ, Option, OnOk, OnErr};
ghost use Rattle.session_recorder.specs.Recorded.{appended, IsCut};

use sm_world::Failed;

/// Where the lines of a record are kept, one behind the other.
pub trait KeptLines {
    // All bytes that are kept, where that is told.
    ghost kept: { Self → Option (List ℕ) };

    // Whether a call that keeps was refused so far.
    ghost refused: { Self → Bool };

    // Whether the user was told that the record goes no further.
    ghost lost: { Self → Bool };

    /// Keeps these bytes behind the others. What a refused call keeps is a front of them.
    fn keep(&mut self, bytes: &[u8]) -> Result<(), Failed>
        ensures ok { OnOk result (Self.kept self.new ≡ appended (Self.kept self.old) bytes.now) }
        ensures err { OnErr result (IsCut (Self.kept self.old) (Self.kept self.new) bytes.now) }
        ensures refused { Self.refused self.new ≡ (Self.refused self.old || is_err result) }
        ensures lost { Self.lost self.new ≡ Self.lost self.old };

    /// Tells the user that the record goes no further, which comes once at most.
    fn tell_lost(&mut self)
        requires { Self.lost self.old ≡ false }
        ensures kept { Self.kept self.new ≡ Self.kept self.old }
        ensures refused { Self.refused self.new ≡ Self.refused self.old }
        ensures lost { Self.lost self.new ≡ true };
}
