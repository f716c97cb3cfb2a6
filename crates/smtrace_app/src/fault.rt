ghost use Rattle.std.specs.Prelude.{◌≡◌};
ghost use Rattle.smtrace_app.specs.Faults.{console_fault, fault_status, fault_line};
ghost use Rattle.smtrace_app.specs.declared.fault.Fault.TheVariants.{NoMemory as OutOfMemory};

use owned_lists::NoMemory;
use program_frame::{ProgramFault, try_line, try_numbered};
use sm_world::{Console, Failure};
use std::alloc::Global;

/// Why a run of the program didn't end well. Each has its status and, but for the console's
/// fault, its line.
#[derive(Clone, Copy, Debug, PartialEq, Eq)]
pub enum Fault {
    BadWords,
    /// The trace's lines are those of the machine up to this one, counted from 1.
    Differs(u64),
    /// This line, counted from 1, is the first that isn't of the grammar.
    Malformed(u64),
    Console,
    NoMemory,
}

impl From<Failure> for Fault {
    ghost from_gives = { λ failure fault. fault ≡ console_fault failure };

    fn from(failure: Failure) -> Fault {
        match failure {
            Failure::Failed => Fault::Console,
            Failure::NoMemory => Fault::NoMemory,
        }
    }
}

impl From<NoMemory> for Fault {
    ghost from_gives = { λ _ fault. fault ≡ OutOfMemory };

    fn from(_error: NoMemory) -> Fault {
        Fault::NoMemory
    }
}

impl ProgramFault for Fault {
    ghost status_of = { fault_status };

    ghost line_of = { fault_line };

    fn status(self) -> u8 {
        match self {
            Fault::BadWords => 1,
            Fault::Differs(_) => 2,
            Fault::Malformed(_) => 3,
            Fault::Console => 6,
            Fault::NoMemory => 10,
        }
    }

    fn report<C: Console>(self, alloc: Global, console: &mut C) {
        match self {
            Fault::BadWords => try_line(console, b"smtrace: bad words\n"),
            Fault::Differs(at) => try_numbered(alloc, console, "differs at ", at),
            Fault::Malformed(at) => try_numbered(alloc, console, "malformed at ", at),
            Fault::Console => {}
            Fault::NoMemory => try_line(console, b"smtrace: no memory\n"),
        }
    }
}
