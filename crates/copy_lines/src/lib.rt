//! The numbered copies of a file that lie beside it, and with which of them a run begins, so that none writes over the copy of
//! another.
#![tactic(auto)]

mod beginning;
mod numbers;

pub use beginning::{Beginning, Found, begin};
pub use numbers::{copy_number, highest_copy};
