//! The words of `smclient`, by `clap`.
#![tactic(auto)]

mod choices;
mod command;
mod reading;

pub use choices::Choices;
pub use reading::{WordsRefusal, read_choices};
