//! Where both ends of a session agree: what a manager knows of one client, how far that client is,
//! and what is under way between them.
#![tactic(auto)]

mod laws;

pub use laws::{
    answers_are_owed, asking_keeps, closing_keeps, crossings_begin, ends_agree, giving_keeps,
    hearing_keeps, nothing_is_bad_state, nothing_is_unexpected, registering_again_keeps,
    saves_are_asked, taking_keeps,
};
