//! The top call of `smnest`, a session manager inside a session: its words, its scripts and what it
//! prints.
#![tactic(auto)]

mod fault;
mod laws;
mod program;
mod rehearsal;
mod serving;
mod words;

pub use laws::{statuses_exclude_each_other, words_mean_one_task};
pub use program::smnest_main;
pub use words::{NestPaths, read_places};
