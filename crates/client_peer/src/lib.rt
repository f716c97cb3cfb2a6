//! The outside of a client: the connection to its manager, the files that it reads, and one of them
//! in memory.
#![tactic(auto)]

mod memory;
mod peer;
mod pieces;

pub use memory::MemPeer;
pub use peer::{FILE_LIMIT, Peer};
