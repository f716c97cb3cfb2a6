ghost use Rattle.std.specs.Prelude.{◌≡◌};
ghost use Rattle.byte_relay.specs.Serving.{relay_fault_of};

use sm_world::Failure;
use thiserror::Error;

/// Why a relay ended before its time.
#[derive(Clone, Copy, Debug, PartialEq, Eq, Error)]
pub enum RelayFault {
    /// The links refused.
    #[error("link fault")]
    LinkFault,
    /// So many events were heard as were granted.
    #[error("turns spent")]
    Spent,
    #[error("out of memory")]
    NoMemory,
}

/// Why a call on the links did nothing.
pub fn link_fault(failure: Failure) -> RelayFault
    ensures { result ≡ relay_fault_of failure }
{
    match failure {
        Failure::Failed => RelayFault::LinkFault,
        Failure::NoMemory => RelayFault::NoMemory,
    }
}
