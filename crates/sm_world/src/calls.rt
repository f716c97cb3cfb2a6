ghost use Rattle.std.specs.Prelude.{◌≡◌, ◌↔◌, ℕ, IsTrue, Contains};
ghost use Rattle.sm_world.specs.Calls.{counted};

use owned_lists::NumberList;
use std::marker::Model;

/// The calls of a world by their numbers, of which some fail.
#[derive(Debug, Drop)]
pub struct Calls {
    /// The numbers of the calls that fail, in rising order.
    failing: Vec<u64>,
    /// The number of the last call, and 0 before the first.
    last: u64,
}

impl Model for Calls {
    ghost use Rattle.std.specs.List.Sorted.{IsNonDecreasing};
    ghost use Rattle.sm_world.specs.Calls.{Numbered};

    ghost Value = { Numbered };

    ghost view = { λ c. record { failing = c.failing.items; last = c.last } };

    ghost invariant = { λ c. IsNonDecreasing c.failing.items };
}

impl Calls {
    /// No call so far. The calls with these numbers fail.
    pub fn new(failing: NumberList) -> Calls
        ensures last { result.last ≡ 0 }
        ensures failing { (number : ℕ) → Contains result.failing number ↔ Contains failing number }
    {
        let mut failing = failing.into_vec();
        failing.sort_unstable();
        Calls { failing, last: 0 }
    }

    /// Counts a call, and says whether it fails.
    pub fn count(&mut self) -> bool
        ensures counted { self.new ≡ counted self.old }
        ensures fails { IsTrue result ↔ Contains self.new.failing self.new.last }
    {
        self.last = self.last.saturating_add(1);
        self.failing.as_slice().binary_search(&self.last).is_ok()
    }
}
