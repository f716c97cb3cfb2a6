//! A manager and its clients over every schedule: whatever happens in whatever order, neither end
//! sends the other BadState, and once all is taken that is under way, both agree.
#![tactic(auto)]

mod laws;

pub use laws::{
    all_ends_agree, answers_are_few, both_ends_agree, client_sends_no_bad_state,
    manager_sends_no_bad_state, others_pass, saves_are_of_the_round, settling_passes,
};
