//! A round of saves: who is in it, how far each member is, and whether all agree.
#![tactic(auto)]

mod members;
mod round;
mod wanted;

pub use round::{Member, Round, Step};
pub use wanted::Wanted;
