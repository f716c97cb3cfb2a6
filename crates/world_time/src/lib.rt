//! The time that ticks tell, against the clock from which it is read; and who asks for it. It calls no
//! device.
#![tactic(auto)]

mod hours;
mod ticking;

pub use hours::{Hours, LONGEST};
pub use ticking::Ticking;
