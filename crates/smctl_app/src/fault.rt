ghost use Rattle.std.specs.Prelude.{◌≡◌};
ghost use Rattle.std.specs.IoError.{error_kind};
ghost use Rattle.smctl_app.specs.Faults.{console_fault, link_fault, name_fault, order_fault, fault_status, fault_line};
ghost use Rattle.smctl_app.specs.declared.fault.Fault.TheVariants.{NoMemory as OutOfMemory};

use control_lines::OrderRefusal;
use owned_lists::NoMemory;
use program_frame::{ProgramFault, try_line};
use sm_world::{Console, Failure};
use std::alloc::{AllocError, Global};
use std::env::VarError;
use std::io;
use std::io::ErrorKind;

/// Why there is no answer. Each has its status and, but for the console's fault, its line.
#[derive(Clone, Copy, Debug, PartialEq, Eq)]
pub enum Fault {
    BadWords,
    /// Neither the words nor the environment name the control socket.
    NoControl,
    /// The manager has no place for a logout that is to be waited for.
    Unordered,
    /// The logout that is waited for was cancelled.
    Cancelled,
    /// The manager isn't reached, or the connection fails.
    Link,
    /// The manager goes before it answers.
    Gone,
    /// What the manager answers can't be read.
    Unreadable,
    Console,
    NoMemory,
}

impl From<Failure> for Fault {
    ghost from_gives = { λ failure fault. fault ≡ console_fault failure };

    fn from(failure: Failure) -> Fault {
        match failure {
            Failure::Failed => Fault::Console,
            Failure::NoMemory => Fault::NoMemory,
        }
    }
}

impl From<NoMemory> for Fault {
    ghost from_gives = { λ _ fault. fault ≡ OutOfMemory };

    fn from(_error: NoMemory) -> Fault {
        Fault::NoMemory
    }
}

impl From<AllocError> for Fault {
    ghost from_gives = { λ _ fault. fault ≡ OutOfMemory };

    fn from(_error: AllocError) -> Fault {
        Fault::NoMemory
    }
}

impl From<OrderRefusal> for Fault {
    ghost from_gives = { λ refusal fault. fault ≡ order_fault refusal };

    fn from(refusal: OrderRefusal) -> Fault {
        match refusal {
            OrderRefusal::BadLine => Fault::BadWords,
            OrderRefusal::NoMemory => Fault::NoMemory,
        }
    }
}

impl From<VarError> for Fault {
    ghost from_gives = { λ error fault. fault ≡ name_fault error };

    fn from(error: VarError) -> Fault {
        match error {
            VarError::OutOfMemory => Fault::NoMemory,
            VarError::NotPresent | VarError::NotUnicode => Fault::NoControl,
        }
    }
}

impl From<io::Error> for Fault {
    ghost from_gives = { λ error fault. fault ≡ link_fault (error_kind error) };

    fn from(error: io::Error) -> Fault {
        match error.kind() {
            ErrorKind::OutOfMemory => Fault::NoMemory,
            ErrorKind::UnexpectedEof | ErrorKind::BrokenPipe | ErrorKind::ConnectionReset => {
                Fault::Gone
            }
            _ => Fault::Link,
        }
    }
}

impl ProgramFault for Fault {
    ghost status_of = { fault_status };

    ghost line_of = { fault_line };

    fn status(self) -> u8 {
        match self {
            Fault::BadWords | Fault::NoControl => 1,
            Fault::Unordered | Fault::Cancelled => 1,
            Fault::Link => 5,
            Fault::Gone => 5,
            Fault::Console => 6,
            Fault::NoMemory => 10,
            Fault::Unreadable => 11,
        }
    }

    fn report<W: Console>(self, _alloc: Global, world: &mut W) {
        match self {
            Fault::BadWords => try_line(world, b"smctl: bad words\n"),
            Fault::NoControl => try_line(world, b"smctl: no control socket\n"),
            Fault::Unordered => try_line(world, b"smctl: no logout was ordered\n"),
            Fault::Cancelled => try_line(world, b"smctl: the logout was cancelled\n"),
            Fault::Link | Fault::Gone => try_line(world, b"smctl: no answer\n"),
            Fault::Unreadable => try_line(world, b"smctl: the answer can't be read\n"),
            Fault::Console => {}
            Fault::NoMemory => try_line(world, b"smctl: no memory\n"),
        }
    }
}
