//! The rounds of saves of a session: the one that runs, how far the rounds of all clients are, and
//! those that wait for their turn.
#![tactic(auto)]

mod marks;
mod running;
mod waiting;
mod waits;

pub use running::{Progress, RunningRound};
pub use waiting::WaitingRounds;
pub use waits::is_only;
