//! In which waves the programs of a login are started: who is to be there first says so by its
//! priority, and the others are started once those before them have joined, or two seconds later.
#![tactic(auto)]

mod laws;
mod priorities;
mod ranks;
mod waves;

pub use laws::{earlier_go_first, none_is_lost};
pub use priorities::priority_of;
pub use ranks::{Ranked, RankedList, ranks_of};
pub use waves::{PATIENCE, Turn, Waves};
