ghost use Rattle.std.specs.Prelude.{◌≡◌};
ghost use Rattle.checkpoint_slots.specs.Faults.{fault_of};
ghost use Rattle.checkpoint_slots.specs.declared.fault.StoreFault.TheVariants.{DiskFault as FaultOfDisk, NoMemory as WantOfMemory};

use owned_lists::NoMemory;
use sm_world::{Failed, Failure};

/// Why the store doesn't do what it is asked.
#[derive(Clone, Copy, Debug, PartialEq, Eq)]
pub enum StoreFault {
    /// The file has another size than a store, which has 16,777,280 bytes.
    WrongSize { size: u64 },
    /// The file is no store: its bytes say nothing from this offset on.
    Damaged { at: u64 },
    /// The disk failed.
    DiskFault,
    /// No generation is left: the last one was 18,446,744,073,709,551,615.
    Worn,
    NoMemory,
}

impl From<Failed> for StoreFault {
    ghost from_gives = { λ _ fault. fault ≡ FaultOfDisk };

    fn from(_error: Failed) -> StoreFault {
        StoreFault::DiskFault
    }
}

impl From<NoMemory> for StoreFault {
    ghost from_gives = { λ _ fault. fault ≡ WantOfMemory };

    fn from(_error: NoMemory) -> StoreFault {
        StoreFault::NoMemory
    }
}

impl From<Failure> for StoreFault {
    ghost from_gives = { λ failure fault. fault ≡ fault_of failure };

    fn from(error: Failure) -> StoreFault {
        match error {
            Failure::Failed => StoreFault::DiskFault,
            Failure::NoMemory => StoreFault::NoMemory,
        }
    }
}
