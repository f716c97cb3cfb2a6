ghost use Rattle.std.specs.Prelude.{◌≡◌};
ghost use Rattle.smwrap_app.specs.Faults.{end_of, fault_line, fault_status, file_fault as file_fault_spec, peer_fault as peer_fault_spec};

use named_joiner::NamedEnd;
use program_frame::{ProgramFault, try_line};
use sm_world::{Console, Failure};
use std::alloc::Global;

/// Why a run of the program didn't end well. Each has its status.
#[derive(Clone, Copy, Debug, PartialEq, Eq)]
pub enum Fault {
    BadWords,
    /// The manager refused the client.
    Refused,
    /// The manager's stream ended.
    StreamEnded,
    /// The authority file lets the client in nowhere.
    NoEntry,
    Link,
    Spent,
    NoMemory,
    /// The manager's stream can't be read on.
    Malformed,
    /// A file failed before the program was started.
    Disk,
}

impl ProgramFault for Fault {
    ghost status_of = { fault_status };

    ghost line_of = { fault_line };

    fn status(self) -> u8 {
        match self {
            Fault::BadWords => 1,
            Fault::Refused => 2,
            Fault::StreamEnded => 3,
            Fault::NoEntry => 4,
            Fault::Link => 5,
            Fault::Spent => 9,
            Fault::NoMemory => 10,
            Fault::Malformed => 11,
            Fault::Disk => 13,
        }
    }

    fn report<W: Console>(self, _alloc: Global, world: &mut W) {
        if self == Fault::BadWords {
            try_line(world, b"smwrap: bad words\n");
        }
    }
}

/// How a run ends whose client came to this end.
pub fn ended(end: NamedEnd) -> Result<(), Fault>
    ensures { result ≡ end_of end }
{
    match end {
        NamedEnd::Died => Ok(()),
        NamedEnd::Refused { .. } => Err(Fault::Refused),
        NamedEnd::Malformed { .. } => Err(Fault::Malformed),
    }
}

/// The fault of a peer that failed.
pub fn peer_fault(failure: Failure) -> Fault
    ensures { result ≡ peer_fault_spec failure }
{
    match failure {
        Failure::Failed => Fault::Link,
        Failure::NoMemory => Fault::NoMemory,
    }
}

/// The fault of files that failed before the program was started.
pub fn file_fault(failure: Failure) -> Fault
    ensures { result ≡ file_fault_spec failure }
{
    match failure {
        Failure::Failed => Fault::Disk,
        Failure::NoMemory => Fault::NoMemory,
    }
}
