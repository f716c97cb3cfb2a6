//! A client that joins a session, and leaves what it saves and why it closes to its callbacks.
#![tactic(auto)]

mod callbacks;
mod ends;
mod heeding;
mod joiner;
mod laws;
mod progress;
mod running;
mod saying;

pub use callbacks::{Cancels, Dies, Saves};
pub use ends::{ClientEnd, JoinFault};
pub use joiner::{Join, Joiner};
pub use laws::{ends_exclude_each_other, pieces_make_no_difference};
