//! The clients and the operators over Unix sockets, and the connection to an outer manager. Nobody is
//! told what goes through them; their faults are counted.
#![tactic(auto)]

mod clients;
mod connection;
mod doors;
mod leavers;
mod links;
mod news;
mod operators;
mod options;
mod outbox;
mod paths;
mod reading;
mod sockets;
mod sources;

pub use connection::Connection;
pub use doors::{Hidden, private_listener};
pub use leavers::Leavers;
pub use links::SocketLinks;
pub use options::LinkOptions;
pub use paths::{control_fault, path_fault};
pub use reading::{Reading, is_passing, refused, would_wait};
pub use sources::Source;
