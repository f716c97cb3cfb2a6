ghost use Rattle.std.specs.Prelude.{◌≡◌};

use sm_world::{Conn, MemWorld, Told};

/// A world that shows who is there, and is told for whom somebody has answered.
pub trait Excusing: Told {
    /// Whether somebody has answered for the client of this connection, so that nobody waits for it
    /// whatever passed there.
    fn excuse(&mut self, conn: Conn, excused: bool)
        ensures { Self.outside self.new ≡ Self.outside self.old };
}

/// A world in memory shows nobody.
impl Excusing for MemWorld {
    fn excuse(&mut self, _conn: Conn, _excused: bool) {}
}
