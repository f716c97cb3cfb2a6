//! The store: two slots, each behind a gate. A commit closes the gate of the slot that isn't in use,
//! fills the slot, and opens the gate; so a crash at any moment leaves the old book or the new one.
//! Behind the book of a slot stand amendments, each behind a gate of its own.
#![tactic(auto)]

mod fault;
mod laws;
mod layout;
mod recovery;
mod turn;

pub use fault::StoreFault;
pub use laws::{files_recover_to_one, settled_stores_stand};
pub use layout::{OPEN, STORE_BYTES, Slot};
pub use turn::{Closed, Current, Filled, Steady, put};
