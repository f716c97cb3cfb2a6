//! A manager and a client that exchange bytes: what the manager's machine does about a piece of what is
//! under way to it is a list of steps of a schedule; and every list of steps of both, from the first byte
//! on, is a set-up and then such a schedule, as long as XSMP is spoken once it has begun. Definitions and
//! laws alone; no code.
#![tactic(auto)]

mod laws;

pub use laws::{
    all_that_is_sent_is_said, both_ends_keep_from_the_first_byte, both_ends_keep_their_bytes,
    clients_open, clients_say_no_error, entering_goes_on, managers_hear_messages, managers_set_up,
    others_happen_beside, pairs_keep_to_runs, parts_are_heard, pieces_are_heard, quiet_ends_agree,
    sessions_run, set_ups_begin, set_ups_go_on, talking_begins, talking_goes_on, talking_is_clean,
    talking_stays, worked_pairs,
};
