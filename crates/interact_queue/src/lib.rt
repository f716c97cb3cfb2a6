//! The token for talking with the user: who has it, and who waits for it.
#![tactic(auto)]

mod queue;

pub use queue::InteractQueue;
