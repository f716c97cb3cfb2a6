//! What somebody knows of a session's clients who follows the frames that pass on their connections
//! in both directions, and the lines that say it. It calls no device.
#![tactic(auto)]

mod asking;
mod excusing;
mod known;
mod lines;
mod party;
mod spoken;
mod stage;
mod watch;

pub use asking::{Answered, Asked};
pub use excusing::Excusing;
pub use lines::{asks_who_is_there, put_client, put_count, put_shown};
pub use stage::Stage;
pub use watch::ClientWatch;
