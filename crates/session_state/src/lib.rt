//! What the manager holds of a session, how each move changes it, and that it stands for the
//! session's history. Definitions and laws alone; no code.
#![tactic(auto)]

mod laws;
mod sessions;

pub use laws::{openings_stand, takings_stand};
pub use sessions::sessions_are_held;
