ghost use Rattle.std.specs.Prelude.{◌≡◌};
ghost use Rattle.store_login.specs.Faults.{login_line, login_status, plan_fault};

use login_plan::Refusal;
use program_frame::{ProgramFault, try_line};
use sm_world::Console;
use std::alloc::Global;
use store_return::Fault;

/// Why a login doesn't begin. Each has its status and, but for the console's fault, its line.
#[derive(Clone, Copy, Debug, PartialEq, Eq)]
pub enum LoginFault {
    /// As of a restore.
    OfStore(Fault),
    /// Nothing is kept under the number that was chosen.
    NoNumber,
    /// What is kept can't be read, or nothing more can be kept. Nothing was changed.
    Unkept,
}

impl LoginFault {
    /// Why nothing is planned.
    pub fn of_plan(refusal: Refusal) -> LoginFault
        ensures { result ≡ plan_fault refusal }
    {
        match refusal {
            Refusal::NoNumber => LoginFault::NoNumber,
            Refusal::Stopped(obstacle) => LoginFault::OfStore(Fault::Stopped(obstacle)),
            Refusal::NoMemory => LoginFault::OfStore(Fault::NoMemory),
        }
    }
}

impl ProgramFault for LoginFault {
    ghost status_of = { login_status };

    ghost line_of = { login_line };

    fn status(self) -> u8 {
        match self {
            LoginFault::OfStore(fault) => fault.status(),
            LoginFault::NoNumber => 16,
            LoginFault::Unkept => 17,
        }
    }

    fn report<W: Console>(self, alloc: Global, world: &mut W) {
        match self {
            LoginFault::OfStore(fault) => fault.report(alloc, world),
            LoginFault::NoNumber => try_line(world, b"smd: nothing is kept under this number\n"),
            LoginFault::Unkept => try_line(world, b"smd: the session can't be kept\n"),
        }
    }
}
