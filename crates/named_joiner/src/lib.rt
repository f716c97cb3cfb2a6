//! A client that joins a session without a world: pieces of the manager's stream go in, and what is to
//! be sent comes out. Its callbacks are told which ID the client has, and may want for memory.
#![tactic(auto)]

mod callbacks;
mod callers;
mod ends;
mod heeding;
mod joiner;
mod laws;
mod progress;
mod saying;

pub use callbacks::{ByCall, NamedAsk, NamedDies, NamedSaves};
pub use ends::{HearFault, NamedEnd, NamedReply};
pub use joiner::{BareJoiner, NamedJoiner};
pub use laws::pieces_make_no_difference;
