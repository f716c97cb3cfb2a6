ghost use Rattle.std.specs.Prelude.{◌≡◌};

use sm_world::{MemWorld, SteadyWorld, Told};

/// A world that is told who waits for time. It tells none where nobody does.
pub trait Ticking: Told {
    /// Whether somebody above waits for time. While that is so, the time that goes by is told by ticks,
    /// also where no client is waited for. At first it isn't.
    fn keep_ticking(&mut self, wanted: bool)
        ensures untouched { Self.outside self.new ≡ Self.outside self.old };
}

/// Its events are a list, with all their ticks.
impl Ticking for SteadyWorld {
    fn keep_ticking(&mut self, _wanted: bool) {}
}

/// Its events are a list, with all their ticks.
impl Ticking for MemWorld {
    fn keep_ticking(&mut self, _wanted: bool) {}
}
