//! What somebody sees of connections who follows the frames on them, and who of those that came makes
//! way for others. It calls no device.
#![tactic(auto)]

mod visitor;
mod visitors;
mod watch;

pub use visitors::{Place, Visitors};
pub use watch::Watch;
