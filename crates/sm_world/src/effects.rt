use crate::{Conn, Event};
use owned_lists::{Command, Octets};

/// What has happened at the outside, one call at a time.
#[derive(Debug, Drop)]
pub enum Effect {
    /// An event was taken.
    Heard(Event),
    /// Bytes went out on a connection.
    Sent(Conn, Octets),
    /// A connection was closed by this side.
    Shut(Conn),
    /// A command was started, and whether that succeeded.
    Started(Command, bool),
    /// Bytes were written to the store at a place.
    Wrote(u64, Octets),
    /// A write at a place and of a length failed, and may have written anything there.
    Torn(u64, u64),
    /// What was written is on the disk.
    Synced,
    /// A sync failed.
    SyncFailed,
    /// A small file was replaced: its path and its bytes.
    Published(Octets, Octets),
    /// Bytes were printed for the operator.
    Printed(Octets),
}
