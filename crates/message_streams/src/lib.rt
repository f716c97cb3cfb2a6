//! How messages come back out of their bytes: whatever pieces those come in, each piece brings the first
//! of the messages that are still under way, each once and in their order. Definitions and laws alone;
//! no code.
#![tactic(auto)]

mod laws;

pub use laws::{cuts_are_of_messages, pieces_are_of_messages, streams_are_of_messages};
