//! The outside of a session manager on a real desktop: its sockets, its store, its programs and its
//! console together, and who it is.
#![tactic(auto)]

mod identity;
mod places;
mod world;

pub use identity::{host_name, random_cookie};
pub use places::{BadPlaces, Places};
pub use world::DesktopWorld;
