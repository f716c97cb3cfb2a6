//! The top call of `smclient`: a client that joins a session, as its words say.
#![tactic(auto)]

mod entries;
mod fault;
mod joining;
mod laws;
mod lines;
mod program;
mod rules;

pub use entries::{EntryRefusal, read_cookie};
pub use laws::calls_are_complete;
pub use program::smclient_main;
