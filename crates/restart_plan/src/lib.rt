//! Which clients are started again: when a book is opened, and when a client departs.
#![tactic(auto)]

mod restarts;

pub use restarts::{plan, respawn};
