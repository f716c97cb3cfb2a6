//! The changes that lead from one book to the next, and what stands behind the book of a slot.
#![tactic(auto)]

mod applying;
mod changes;
mod differences;
mod drafts;
mod laws;
mod lengths;
mod reading;
mod rules;
mod spelling;
mod taking;

pub use changes::{Change, Delta};
pub use differences::delta_of;
pub use laws::slots_read_once;
pub use lengths::delta_length;
pub use reading::read_slot;
pub use rules::keeps_rules;
pub use spelling::spell_delta;
