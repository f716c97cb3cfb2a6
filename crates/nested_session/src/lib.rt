//! A manager inside a session: the session machine over a world, and an agent that is a client of an
//! outer manager, whose saves are the session's and whose end is the session's.
#![tactic(auto)]

mod carrying;
mod laws;
mod nest;
mod saying;
mod serving;

pub use laws::{
    a_save_is_told, awaited_ends_are_said, awaited_is_due, awaited_saves_are_backed,
    both_leave_the_same, orders_are_asked_for, tags_are_true,
};
pub use serving::serve_nested;
