//! What the marks of a session say: where more rounds were agreed than had begun before, one began since
//! then and was agreed, and its book was written. Definitions and laws alone; no code.
#![tactic(auto)]

mod laws;

pub use laws::{agreed_rounds_began_since, agreements_are_written, marked_saves_are_written};
