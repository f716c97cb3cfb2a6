//! What is held in memory of its own: bytes, lists, command lines, how they are copied, and want of memory.
#![tactic(auto)]

mod bytes;
mod commands;
mod failures;
mod lists;

pub use bytes::Octets;
pub use commands::Command;
pub use failures::NoMemory;
pub use lists::{CommandList, Duplicate, ListOf, NumberList, OctetsList, PairList};
