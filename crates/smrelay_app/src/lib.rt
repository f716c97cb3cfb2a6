//! The relay's top call: its words, its scripts and what it prints.
#![tactic(auto)]

mod fault;
mod laws;
mod program;
mod rehearsal;
mod serving;
mod trace;
mod words;

pub use laws::{statuses_exclude_each_other, words_mean_one_task};
pub use program::smrelay_main;
pub use words::{Route, read_route};
