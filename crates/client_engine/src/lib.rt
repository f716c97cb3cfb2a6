//! What a client of a session does about the stream of its manager, without any device: pieces go in,
//! and what comes out is what the client says by itself and what is left to its keeper.
#![tactic(auto)]

mod asking;
mod engine;
mod hearing;
mod keeping;
mod laws;
mod messages;
mod opening;
mod place;
mod received;
mod speaking;

pub use asking::{closing, greeting, stage_again};
pub use engine::{Core, Taken};
pub use hearing::Cue;
pub use keeping::{Keeps, take_piece};
pub use laws::{a_piece_comes_in_parts, one_who_stopped_does_nothing};
pub use messages::{MessageList, spell};
pub use place::{Counts, Place, Talk};
