//! What the book of an agreement holds, and the commands that go with an agreement.
#![tactic(auto)]

mod commands;
mod entries;

pub use commands::{command_anyway, last_commands};
pub use entries::{entries_without, next_entries};
