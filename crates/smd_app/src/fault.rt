ghost use Rattle.std.specs.Prelude.{◌≡◌};
ghost use Rattle.smd_app.specs.FaultLines.{console_fault, disk_fault, link_fault, script_fault, served_fault, fault_status, fault_line};
ghost use Rattle.smd_app.specs.declared.fault.Fault.TheVariants.{NoMemory as OutOfMemory};

use crate::script::ScriptFault;
use owned_lists::NoMemory;
use program_frame::{ProgramFault, try_line, try_numbered};
use session_engine::ServeFault;
use sm_world::{Console, Failure};
use std::alloc::Global;

/// Why a run of the program didn't end well. Each has its status and, but for the console's
/// fault, its line.
#[derive(Clone, Copy, Debug, PartialEq, Eq)]
pub enum Fault {
    BadWords,
    /// The store is damaged at this byte.
    Damaged(u64),
    /// The store has this size, which is no store's.
    WrongSize(u64),
    /// The store has as many other sessions as a store may have.
    TooManySessions,
    Disk,
    Links,
    Console,
    /// This line of the script, counted from 1, is the first that isn't of the grammar.
    BadLine(u64),
    /// The store has no number for one checkpoint more.
    Worn,
    /// So many events were heard as were granted.
    Spent,
    NoMemory,
}

impl From<Failure> for Fault {
    ghost from_gives = { λ failure fault. fault ≡ console_fault failure };

    fn from(failure: Failure) -> Fault {
        match failure {
            Failure::Failed => Fault::Console,
            Failure::NoMemory => Fault::NoMemory,
        }
    }
}

impl From<NoMemory> for Fault {
    ghost from_gives = { λ _ fault. fault ≡ OutOfMemory };

    fn from(_error: NoMemory) -> Fault {
        Fault::NoMemory
    }
}

impl From<ScriptFault> for Fault {
    ghost from_gives = { λ cause fault. fault ≡ script_fault cause };

    fn from(fault: ScriptFault) -> Fault {
        match fault {
            ScriptFault::BadLine(number) => Fault::BadLine(number),
            ScriptFault::NoMemory => Fault::NoMemory,
        }
    }
}

impl From<ServeFault> for Fault {
    ghost from_gives = { λ cause fault. fault ≡ served_fault cause };

    fn from(fault: ServeFault) -> Fault {
        match fault {
            ServeFault::Damaged { at } => Fault::Damaged(at),
            ServeFault::WrongSize { size } => Fault::WrongSize(size),
            ServeFault::TooManySessions => Fault::TooManySessions,
            ServeFault::DiskFault => Fault::Disk,
            ServeFault::LinkFault => Fault::Links,
            ServeFault::ConsoleFault => Fault::Console,
            ServeFault::Worn => Fault::Worn,
            ServeFault::Spent => Fault::Spent,
            ServeFault::NoMemory => Fault::NoMemory,
        }
    }
}

impl Fault {
    /// Why a call on the disk did nothing.
    pub fn of_disk(failure: Failure) -> Fault
        ensures { result ≡ disk_fault failure }
    {
        match failure {
            Failure::Failed => Fault::Disk,
            Failure::NoMemory => Fault::NoMemory,
        }
    }

    /// Why a call on the links did nothing.
    pub fn of_links(failure: Failure) -> Fault
        ensures { result ≡ link_fault failure }
    {
        match failure {
            Failure::Failed => Fault::Links,
            Failure::NoMemory => Fault::NoMemory,
        }
    }
}

impl ProgramFault for Fault {
    ghost status_of = { fault_status };

    ghost line_of = { fault_line };

    fn status(self) -> u8 {
        match self {
            Fault::BadWords => 1,
            Fault::Damaged(_) => 2,
            Fault::WrongSize(_) => 3,
            Fault::Disk => 4,
            Fault::Links => 5,
            Fault::Console => 6,
            Fault::BadLine(_) => 7,
            Fault::Worn => 8,
            Fault::Spent => 9,
            Fault::NoMemory => 10,
            Fault::TooManySessions => 12,
        }
    }

    fn report<W: Console>(self, alloc: Global, world: &mut W) {
        match self {
            Fault::BadWords => try_line(world, b"smd: bad words\n"),
            Fault::Damaged(at) => try_numbered(alloc, world, "smd: store damaged at ", at),
            Fault::WrongSize(size) => try_numbered(alloc, world, "smd: store has size ", size),
            Fault::Disk => try_line(world, b"smd: disk fault\n"),
            Fault::Links => try_line(world, b"smd: link fault\n"),
            Fault::Console => {}
            Fault::BadLine(number) => {
                try_numbered(alloc, world, "smd: bad script line ", number);
            }
            Fault::Worn => try_line(world, b"smd: store worn\n"),
            Fault::Spent => try_line(world, b"smd: turns spent\n"),
            Fault::NoMemory => try_line(world, b"smd: no memory\n"),
            Fault::TooManySessions => try_line(world, b"smd: too many sessions\n"),
        }
    }
}
