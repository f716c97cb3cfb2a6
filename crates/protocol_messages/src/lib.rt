//! A message of either protocol, as both ends of a session send it, and its bytes.
#![tactic(auto)]

mod message;

pub use message::{Message, encode};
