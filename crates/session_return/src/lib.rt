//! What comes back of a kept book, and what stands in the way.
#![tactic(auto)]

mod anew;
mod entries;
mod fates;
mod laws;
mod obstacles;
mod returns;

pub use anew::begin_anew;
pub use fates::{Fate, fate_of};
pub use laws::{
    again_is_the_same, all_sessions_come_back, due_discards_stay, epochs_never_fall,
    nothing_back_is_due, nothing_becomes_due, one_session_begins_anew, other_sessions_stay,
    returns_keep_rules, there_is_a_way_back,
};
pub use obstacles::{Obstacle, Refusal};
pub use returns::{Which, entries_back, put_back};
