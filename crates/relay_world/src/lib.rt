//! The outside of a relay: those who come at its socket, each with a connection that leads on to the
//! manager's, and its console.
#![tactic(auto)]

mod doors;
mod links;
mod news;
mod sockets;
mod streams;
mod world;

pub use links::PairLinks;
pub use world::RelayWorld;
