//! A client of a session: how far it is, what it may send, and what each message asks of it.
#![tactic(auto)]

mod acts;
mod client;
mod laws;
mod phase;
mod requests;
mod saves;

pub use acts::ClientAct;
pub use client::Client;
pub use laws::lawful_steps_have_their_place;
pub use phase::ClientPhase;
pub use requests::{AskRefusal, Request};
pub use saves::{SaveAnswer, SaveAsk, Stage, Step};
