//! What is done for a client whose logout is called off before it has answered: it is answered for, and
//! what it says late is taken away; and for one that has left such a logout already, or leaves behind it,
//! which stays with the manager as a leaver. Each message of both parties goes through here. It calls no
//! device.
#![tactic(auto)]

mod late;
mod laws;
mod leaver;
mod outcome;
mod saying;
mod telling;

pub use late::{Debt, Late, Save};
pub use laws::{
    answers_are_of_the_running_save, debts_end, leavers_end, leavers_go_on,
    leavers_have_their_place, leavers_stand, others_are_heard, others_are_let_go,
    others_are_sent_all, words_have_their_place,
};
pub use leaver::{Leaver, Line, Parting, Stay};
pub use outcome::{Outcome, Outgoing, Said, Word};
