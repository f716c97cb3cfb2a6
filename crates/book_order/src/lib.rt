//! The books that a session writes: each keeps the order of the one before it, so that little has to be said of what changed.
//! Definitions and laws alone; no code.
#![tactic(auto)]

mod laws;

pub use laws::{books_keep_order, openings_keep_order, plain_deltas_are_as_long};
