ghost use Rattle.std.specs.Prelude.{◌≡◌, None, Some};

use sm_world::{Event, Failure};
use std::io;
use std::io::ErrorKind;

/// What a source gave when its turn came.
#[derive(Debug, Drop)]
pub struct Reading {
    pub event: Option<Event>,
    /// Whether it may have more that nobody will tell of: it gets another turn.
    pub more: bool,
}

impl Reading {
    /// Nothing, and nothing more until the system tells of it.
    pub fn nothing() -> Reading
        ensures { result.event ≡ None }
    {
        Reading {
            event: None,
            more: false,
        }
    }

    /// Nothing this time.
    pub fn later() -> Reading
        ensures { result.event ≡ None }
    {
        Reading {
            event: None,
            more: true,
        }
    }

    /// An event, after which there may be more.
    pub fn one(event: Event) -> Reading
        ensures { result.event ≡ Some event }
    {
        Reading {
            event: Some(event),
            more: true,
        }
    }
}

/// Whether there is nothing to read or to take yet.
pub fn would_wait(error: &io::Error) -> bool {
    error.kind() == ErrorKind::WouldBlock
}

/// Whether the same call may succeed the next time.
pub fn is_passing(error: &io::Error) -> bool {
    matches!(
        error.kind(),
        ErrorKind::Interrupted | ErrorKind::ConnectionAborted
    )
}

/// The failure for an error of the system.
pub fn refused(error: io::Error) -> Failure {
    match error.kind() {
        ErrorKind::OutOfMemory => Failure::NoMemory,
        _ => Failure::Failed,
    }
}
