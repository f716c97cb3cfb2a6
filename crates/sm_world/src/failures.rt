ghost use Rattle.std.specs.Prelude.{◌≡◌};
ghost use Rattle.sm_world.specs.declared.failures.Failure.TheVariants.{Failed as Refused, NoMemory as OutOfMemory};

use owned_lists::NoMemory;
use std::alloc::AllocFailed;

/// A device refused.
#[derive(Clone, Copy, Debug, PartialEq, Eq)]
pub struct Failed;

/// Why a call on the outside did nothing.
#[derive(Clone, Copy, Debug, PartialEq, Eq)]
pub enum Failure {
    /// The device refused.
    Failed,
    /// Memory was wanting.
    NoMemory,
}

/// How often the devices behind each trait have failed so far. A count that has reached the
/// largest `u64` stays there.
#[derive(Clone, Copy, Debug, PartialEq, Eq)]
pub struct Faults {
    pub disk: u64,
    pub links: u64,
    pub spawner: u64,
    pub console: u64,
}

impl From<Failed> for Failure {
    ghost from_gives = { λ _ e. e ≡ Refused };

    fn from(_error: Failed) -> Failure {
        Failure::Failed
    }
}

impl From<NoMemory> for Failure {
    ghost from_gives = { λ _ e. e ≡ OutOfMemory };

    fn from(_error: NoMemory) -> Failure {
        Failure::NoMemory
    }
}

impl<T: Drop> From<AllocFailed<T>> for Failure {
    ghost from_gives = { λ _ e. e ≡ OutOfMemory };

    fn from(_error: AllocFailed<T>) -> Failure {
        Failure::NoMemory
    }
}
