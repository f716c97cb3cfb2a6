//! The outside of a real client: a connection over a Unix socket, the files of the system, and its
//! standard input and output.
#![tactic(auto)]

mod peer;
mod reading;

pub use peer::UnixPeer;
pub use reading::read_file;
