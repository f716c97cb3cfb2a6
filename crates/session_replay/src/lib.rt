//! Runs the session machine over the events of a trace, and compares what it does with the trace.
#![tactic(auto)]

mod comparing;
mod laws;
mod replaying;
mod rerun;

pub use laws::a_trace_has_one_verdict;
pub use replaying::{Verdict, replay, replay_within};
