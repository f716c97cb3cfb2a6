ghost use Rattle.std.specs.Prelude.{◌≡◌, None};
ghost use Rattle.sm_world.specs.Outside.{Added};
ghost use Rattle.program_frame.specs.Printing.{OnlyPrints, Tries};
ghost use Rattle.smnest_app.specs.FaultLines.{console_fault, fault_line, fault_status, link_fault, script_fault, session_line};
ghost use Rattle.smnest_app.specs.declared.fault.Fault.TheVariants.{Session as OfSession};
ghost use Rattle.smd_app.specs.declared.fault.Fault.TheVariants.{NoMemory as OutOfMemory};

use event_script::ScriptFault;
use owned_lists::NoMemory;
use program_frame::{ProgramFault, try_line, try_numbered};
use sm_world::{Console, Failure};
use smd_app::Fault as SessionFault;
use std::alloc::Global;

/// Why a run of the program didn't end well.
#[derive(Clone, Copy, Debug, PartialEq, Eq)]
pub enum Fault {
    /// A fault that a session by itself can have. It has its status.
    Session(SessionFault),
    /// The file has no cookie for the outer manager's socket.
    NoCookie,
}

impl From<Failure> for Fault {
    ghost from_gives = { λ failure fault. fault ≡ console_fault failure };

    fn from(failure: Failure) -> Fault {
        Fault::Session(SessionFault::from(failure))
    }
}

impl From<NoMemory> for Fault {
    ghost from_gives = { λ _ fault. fault ≡ OfSession OutOfMemory };

    fn from(_error: NoMemory) -> Fault {
        Fault::Session(SessionFault::NoMemory)
    }
}

impl From<ScriptFault> for Fault {
    ghost from_gives = { λ cause fault. fault ≡ script_fault cause };

    fn from(fault: ScriptFault) -> Fault {
        match fault {
            ScriptFault::BadLine(number) => Fault::Session(SessionFault::BadLine(number)),
            ScriptFault::NoMemory => Fault::Session(SessionFault::NoMemory),
        }
    }
}

impl Fault {
    /// Why a call on the links or for the outer manager did nothing.
    pub fn of_links(failure: Failure) -> Fault
        ensures { result ≡ link_fault failure }
    {
        Fault::Session(SessionFault::of_links(failure))
    }
}

/// Prints the line of a session's fault, where it has one, once.
fn report_session<W: Console>(fault: SessionFault, alloc: Global, world: &mut W)
    ensures tried { Added (W.outside world.old).told (W.outside world.new).told
        (Tries (session_line fault)) }
    ensures prints { OnlyPrints (W.outside world.old) (W.outside world.new) }
    ensures silent { session_line fault ≡ None → W.outside world.new ≡ W.outside world.old }
{
    match fault {
        SessionFault::BadWords => try_line(world, b"smnest: bad words\n"),
        SessionFault::Damaged(at) => try_numbered(alloc, world, "smnest: store damaged at ", at),
        SessionFault::WrongSize(size) => {
            try_numbered(alloc, world, "smnest: store has size ", size);
        }
        SessionFault::Disk => try_line(world, b"smnest: disk fault\n"),
        SessionFault::Links => try_line(world, b"smnest: link fault\n"),
        SessionFault::Console => {}
        SessionFault::BadLine(number) => {
            try_numbered(alloc, world, "smnest: bad script line ", number);
        }
        SessionFault::Worn => try_line(world, b"smnest: store worn\n"),
        SessionFault::Spent => try_line(world, b"smnest: turns spent\n"),
        SessionFault::NoMemory => try_line(world, b"smnest: no memory\n"),
        SessionFault::TooManySessions => try_line(world, b"smnest: too many sessions\n"),
    }
}

impl ProgramFault for Fault {
    ghost status_of = { fault_status };

    ghost line_of = { fault_line };

    fn status(self) -> u8 {
        match self {
            Fault::Session(fault) => fault.status(),
            Fault::NoCookie => 14,
        }
    }

    fn report<W: Console>(self, alloc: Global, world: &mut W) {
        match self {
            Fault::Session(fault) => report_session(fault, alloc, world),
            Fault::NoCookie => try_line(world, b"smnest: no outer cookie\n"),
        }
    }
}
