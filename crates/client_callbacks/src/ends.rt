ghost use Rattle.std.specs.Prelude.{◌≡◌};
ghost use Rattle.client_callbacks.specs.Running.{answer_of, fault_of};

use client_machine::ClientPhase;
use sm_world::Failure;
use thiserror::Error;

/// How a client's run ended.
#[derive(Clone, Copy, Debug, PartialEq, Eq)]
pub enum ClientEnd {
    /// The manager told the client to die, and it closed.
    Died,
    /// All saves that it waited for are complete, and it closed.
    Closed,
    /// The stream ended, when the client was in this phase.
    StreamEnded { phase: ClientPhase },
}

/// What brought a run to its end, where nothing cut it short.
#[derive(Clone, Copy, Debug, PartialEq, Eq)]
pub enum Ending {
    /// The client was told to die, and closed.
    Died,
    /// The last save is complete, and the client closed.
    Closed,
    /// The stream ended, when the client was in this phase.
    StreamEnded(ClientPhase),
    /// An Error of this class is fatal.
    Refused(u16),
    /// The frame that begins at this byte can't be read.
    Malformed(u64),
}

/// Why a client's run ended otherwise.
#[derive(Clone, Copy, Debug, PartialEq, Eq, Error)]
pub enum JoinFault {
    /// The connection failed.
    #[error("link fault")]
    LinkFault,
    /// The manager answered with an Error of this class, which is fatal.
    #[error("refused with class {class}")]
    Refused { class: u16 },
    /// The frame that begins at this byte of the stream, counted from 0, spells no message, or its
    /// header states too much. A place behind 18,446,744,073,709,551,615 is told as that number.
    #[error("malformed at {at}")]
    Malformed { at: u64 },
    /// So many receives gave bytes as were granted.
    #[error("turns spent")]
    Spent,
    #[error("out of memory")]
    NoMemory,
}

impl Ending {
    /// The answer of the run.
    pub fn answer(self) -> Result<ClientEnd, JoinFault>
        ensures { result ≡ answer_of self }
    {
        match self {
            Ending::Died => Ok(ClientEnd::Died),
            Ending::Closed => Ok(ClientEnd::Closed),
            Ending::StreamEnded(phase) => Ok(ClientEnd::StreamEnded { phase }),
            Ending::Refused(class) => Err(JoinFault::Refused { class }),
            Ending::Malformed(at) => Err(JoinFault::Malformed { at }),
        }
    }
}

/// The fault of a run that a failure cut short.
pub fn fault(failure: Failure) -> JoinFault
    ensures { result ≡ fault_of failure }
{
    match failure {
        Failure::Failed => JoinFault::LinkFault,
        Failure::NoMemory => JoinFault::NoMemory,
    }
}
