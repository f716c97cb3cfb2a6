//! The connection of a manager to an outer one, and the file that it has the outer cookie from: the
//! trait, and the worlds in memory with it.
#![tactic(auto)]

mod memory;
mod outer;

pub use outer::Outer;
