//! What the words of `serve` say: the options of what stands around a session, and the words that its
//! main call reads.
#![tactic(auto)]

mod item;
mod laws;
mod words;

pub use laws::words_say_one;
pub use words::{ServeWords, read_serve};
