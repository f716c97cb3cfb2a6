//! The top call of `smwrap`: a session for a program that knows none and keeps its state in one file.
#![tactic(auto)]

mod fault;
mod joining;
mod laws;
mod program;
mod starting;
mod words;

pub use laws::{a_client_tells_what_it_answers, copies_are_apart};
pub use program::smwrap_main;
pub use words::{Choices, read_choices};
