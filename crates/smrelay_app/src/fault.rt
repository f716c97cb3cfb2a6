ghost use Rattle.std.specs.Prelude.{◌≡◌};
ghost use Rattle.smrelay_app.specs.FaultLines.{console_fault, link_fault, script_fault, served_fault, fault_status, fault_line};
ghost use Rattle.smrelay_app.specs.declared.fault.Fault.TheVariants.{NoMemory as OutOfMemory};

use byte_relay::RelayFault;
use event_script::ScriptFault;
use owned_lists::NoMemory;
use program_frame::{ProgramFault, try_line, try_numbered};
use sm_world::{Console, Failure};
use std::alloc::Global;

/// Why a run of the program didn't end well. Each has its status and, but for the console's
/// fault, its line.
#[derive(Clone, Copy, Debug, PartialEq, Eq)]
pub enum Fault {
    BadWords,
    Links,
    Console,
    /// This line of the script, counted from 1, is the first that isn't of the grammar.
    BadLine(u64),
    /// So many events were heard as were granted.
    Spent,
    NoMemory,
}

impl From<Failure> for Fault {
    ghost from_gives = { λ failure fault. fault ≡ console_fault failure };

    fn from(failure: Failure) -> Fault {
        match failure {
            Failure::Failed => Fault::Console,
            Failure::NoMemory => Fault::NoMemory,
        }
    }
}

impl From<NoMemory> for Fault {
    ghost from_gives = { λ _ fault. fault ≡ OutOfMemory };

    fn from(_error: NoMemory) -> Fault {
        Fault::NoMemory
    }
}

impl From<ScriptFault> for Fault {
    ghost from_gives = { λ cause fault. fault ≡ script_fault cause };

    fn from(fault: ScriptFault) -> Fault {
        match fault {
            ScriptFault::BadLine(number) => Fault::BadLine(number),
            ScriptFault::NoMemory => Fault::NoMemory,
        }
    }
}

impl From<RelayFault> for Fault {
    ghost from_gives = { λ cause fault. fault ≡ served_fault cause };

    fn from(fault: RelayFault) -> Fault {
        match fault {
            RelayFault::LinkFault => Fault::Links,
            RelayFault::Spent => Fault::Spent,
            RelayFault::NoMemory => Fault::NoMemory,
        }
    }
}

impl Fault {
    /// Why a call on the links did nothing.
    pub fn of_links(failure: Failure) -> Fault
        ensures { result ≡ link_fault failure }
    {
        match failure {
            Failure::Failed => Fault::Links,
            Failure::NoMemory => Fault::NoMemory,
        }
    }
}

impl ProgramFault for Fault {
    ghost status_of = { fault_status };

    ghost line_of = { fault_line };

    fn status(self) -> u8 {
        match self {
            Fault::BadWords => 1,
            Fault::Links => 5,
            Fault::Console => 6,
            Fault::BadLine(_) => 7,
            Fault::Spent => 9,
            Fault::NoMemory => 10,
        }
    }

    fn report<W: Console>(self, alloc: Global, world: &mut W) {
        match self {
            Fault::BadWords => try_line(world, b"smrelay: bad words\n"),
            Fault::Links => try_line(world, b"smrelay: link fault\n"),
            Fault::Console => {}
            Fault::BadLine(number) => {
                try_numbered(alloc, world, "smrelay: bad script line ", number);
            }
            Fault::Spent => try_line(world, b"smrelay: turns spent\n"),
            Fault::NoMemory => try_line(world, b"smrelay: no memory\n"),
        }
    }
}
