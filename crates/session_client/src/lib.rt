//! A program's way into a session (XSMP, chapters 7 to 9), without any device: the bytes of the
//! manager's stream go in, and what comes out is bytes to be sent, a cue, and the client as what it is
//! then. A client can only say what has its place: what has none is no call of what the client is.
#![tactic(auto)]

mod client;
mod hearing;
mod member;
mod saying;
mod turns;
mod wishes;

pub use client::{Client, Dying, Heard, Member, Opening};
pub use saying::put_message;
pub use turns::{Owing, Saving, SavingTwo, Talking, Turn};
pub use wishes::{SaveWish, Scope};
