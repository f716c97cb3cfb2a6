//! The record of a session: a world around a world, which hands each call on and keeps the line of
//! each event and deed, as a rehearsal prints it.
#![tactic(auto)]

mod kept_lines;
mod opening;
mod progress;
mod record;
mod recorder;
mod world;

pub use kept_lines::KeptLines;
pub use opening::opening_of;
pub use progress::Progress;
pub use recorder::Recorder;
