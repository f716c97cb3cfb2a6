ghost use Rattle.std.specs.Prelude.{◌≡◌};
ghost use Rattle.smclient_app.specs.Faults.{after_printing, end_of, fault_line, fault_status, unprinted_end};

use client_callbacks::{ClientEnd, JoinFault};
use program_frame::{ProgramFault, try_line};
use sm_world::{Console, Failure};
use std::alloc::Global;

/// Why a run of the program didn't end well. Each has its status.
#[derive(Clone, Copy, Debug, PartialEq, Eq)]
pub enum Fault {
    BadWords,
    /// The manager refused the client.
    Refused,
    /// The manager's stream ended.
    StreamEnded,
    /// The authority file lets the client in nowhere.
    NoEntry,
    Link,
    Console,
    Spent,
    NoMemory,
    /// The manager's stream can't be read on.
    Malformed,
}

impl ProgramFault for Fault {
    ghost status_of = { fault_status };

    ghost line_of = { fault_line };

    fn status(self) -> u8 {
        match self {
            Fault::BadWords => 1,
            Fault::Refused => 2,
            Fault::StreamEnded => 3,
            Fault::NoEntry => 4,
            Fault::Link => 5,
            Fault::Console => 6,
            Fault::Spent => 9,
            Fault::NoMemory => 10,
            Fault::Malformed => 11,
        }
    }

    fn report<W: Console>(self, _alloc: Global, world: &mut W) {
        if self == Fault::BadWords {
            try_line(world, b"smclient: bad words\n");
        }
    }
}

/// How a run ends that the client's answer ends so.
fn end(answer: Result<ClientEnd, JoinFault>) -> Result<(), Fault>
    ensures { result ≡ end_of answer }
{
    match answer {
        Ok(ClientEnd::Died) => Ok(()),
        Ok(ClientEnd::Closed) => Ok(()),
        Ok(ClientEnd::StreamEnded { .. }) => Err(Fault::StreamEnded),
        Err(JoinFault::LinkFault) => Err(Fault::Link),
        Err(JoinFault::Refused { .. }) => Err(Fault::Refused),
        Err(JoinFault::Malformed { .. }) => Err(Fault::Malformed),
        Err(JoinFault::Spent) => Err(Fault::Spent),
        Err(JoinFault::NoMemory) => Err(Fault::NoMemory),
    }
}

/// How a run ends whose lines were printed then, or not. Of two faults that of the client stands, but
/// for want of memory.
pub fn ending(
    answer: Result<ClientEnd, JoinFault>,
    printed: Result<(), Failure>,
) -> Result<(), Fault>
    ensures { result ≡ after_printing printed (end_of answer) }
{
    match printed {
        Ok(()) => end(answer),
        Err(Failure::Failed) => unprinted(end(answer)),
        Err(Failure::NoMemory) => Err(Fault::NoMemory),
    }
}

/// How a run ends whose lines the console refused.
fn unprinted(ended: Result<(), Fault>) -> Result<(), Fault>
    ensures { result ≡ unprinted_end ended }
{
    match ended {
        Ok(()) => Err(Fault::Console),
        Err(fault) => Err(fault),
    }
}
