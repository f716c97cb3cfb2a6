ghost use Rattle.std.specs.Prelude.{◌≡◌};
ghost use Rattle.session_engine.specs.Causes.{fault_of, halt_of, console_halt_of, IsOfCommit, commit_halt_of, opening_fault_of};

use checkpoint_slots::StoreFault;
use sm_world::Failure;
use thiserror::Error;

/// Why a run ended before its time.
#[derive(Clone, Copy, Debug, PartialEq, Eq, Error)]
pub enum ServeFault {
    /// The store is damaged at this byte.
    #[error("damaged store")]
    Damaged { at: u64 },
    /// The store has this size, which is no store's.
    #[error("wrong store size")]
    WrongSize { size: u64 },
    /// The store has as many other sessions as a store may have.
    #[error("too many sessions")]
    TooManySessions,
    /// The disk refused.
    #[error("disk fault")]
    DiskFault,
    /// The links refused.
    #[error("link fault")]
    LinkFault,
    /// The console refused.
    #[error("console fault")]
    ConsoleFault,
    /// The store has no number for one checkpoint more, or its epochs are used up.
    #[error("worn store")]
    Worn,
    /// So many events were heard as were granted.
    #[error("turns spent")]
    Spent,
    #[error("out of memory")]
    NoMemory,
}

/// Why what an event brings isn't done to its end.
#[derive(Clone, Copy, Debug, PartialEq, Eq)]
pub enum Halt {
    /// The links refused.
    Links,
    /// The console refused.
    Console,
    /// The disk refused.
    Disk,
    /// The store has no number for one checkpoint more.
    Worn,
    NoMemory,
}

impl Halt {
    /// The fault of the run that it ends.
    pub fn fault(self) -> ServeFault
        ensures { result ≡ fault_of self }
    {
        match self {
            Halt::Links => ServeFault::LinkFault,
            Halt::Console => ServeFault::ConsoleFault,
            Halt::Disk => ServeFault::DiskFault,
            Halt::Worn => ServeFault::Worn,
            Halt::NoMemory => ServeFault::NoMemory,
        }
    }
}

/// Why a call on the links did nothing.
pub fn link_halt(failure: Failure) -> Halt
    ensures { result ≡ halt_of failure }
{
    match failure {
        Failure::Failed => Halt::Links,
        Failure::NoMemory => Halt::NoMemory,
    }
}

/// Why a call on the console did nothing.
pub fn console_halt(failure: Failure) -> Halt
    ensures { result ≡ console_halt_of failure }
{
    match failure {
        Failure::Failed => Halt::Console,
        Failure::NoMemory => Halt::NoMemory,
    }
}

/// Why a checkpoint wasn't written.
pub fn commit_halt(fault: StoreFault) -> Halt
    requires { IsOfCommit fault }
    ensures { result ≡ commit_halt_of fault }
{
    match fault {
        StoreFault::DiskFault => Halt::Disk,
        StoreFault::Worn => Halt::Worn,
        StoreFault::NoMemory => Halt::NoMemory,
        StoreFault::WrongSize { .. } | StoreFault::Damaged { .. } => unreachable!(),
    }
}

/// Why the store couldn't be opened.
pub fn opening_fault(fault: StoreFault) -> ServeFault
    ensures { result ≡ opening_fault_of fault }
{
    match fault {
        StoreFault::WrongSize { size } => ServeFault::WrongSize { size },
        StoreFault::Damaged { at } => ServeFault::Damaged { at },
        StoreFault::DiskFault => ServeFault::DiskFault,
        StoreFault::Worn => ServeFault::Worn,
        StoreFault::NoMemory => ServeFault::NoMemory,
    }
}
