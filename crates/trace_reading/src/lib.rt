//! A trace told for people: one line a message, with its texts as texts.
#![tactic(auto)]

mod commands;
mod following;
mod laws;
mod lines;
mod programs;
mod reading;
mod telling;

pub use commands::put_command;
pub use following::Follower;
pub use laws::a_trace_is_told_in_one_way;
pub use lines::put_stamp;
pub use reading::read_within;
