//! The session manager's top call: its words, its scripts and what it prints.
#![tactic(auto)]

mod exercise;
mod fault;
mod identity;
mod laws;
mod program;
mod rehearsal;
mod script;
mod serving;
mod summary;
mod trace;
mod words;

pub use fault::Fault;
pub use identity::Identity;
pub use laws::{calls_are_complete, statuses_exclude_each_other, words_mean_one_task};
pub use program::smd_main;
pub use rehearsal::Rehearsal;
pub use serving::{announce, config_for, hand_out};
pub use trace::trace_text;
pub use words::{Paths, paths_of, patience_of, read_paths, read_patience, session_of};
