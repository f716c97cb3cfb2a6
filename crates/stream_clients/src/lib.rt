//! A client on the stream of its manager, by messages: what it does about the frame of a message is what
//! it does about the message. Definitions and laws alone; no code.
#![tactic(auto)]

mod laws;

pub use laws::{clients_take_messages, parts_are_steps, pieces_are_steps, wishes_are_steps};
