ghost use Rattle.std.specs.Prelude.{◌≡◌};
ghost use Rattle.manager_machine.specs.declared.faults.TakeFault.TheVariants.{NoMemory as NoMemoryToTake};

use owned_lists::NoMemory;

/// Why an event isn't taken.
#[derive(Clone, Copy, Debug, PartialEq, Eq)]
pub enum TakeFault {
    /// An earlier call answered want of memory, and nothing is known of the session since.
    Stopped,
    NoMemory,
}

impl From<NoMemory> for TakeFault {
    ghost from_gives = { λ _ fault. fault ≡ NoMemoryToTake };

    fn from(_error: NoMemory) -> TakeFault {
        TakeFault::NoMemory
    }
}
