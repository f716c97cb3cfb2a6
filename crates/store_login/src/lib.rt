//! A login to a session: its words, what it keeps, what the store gets, and what is told of it.
#![tactic(auto)]

mod carrying;
mod faults;
mod lines;
mod words;

pub use carrying::{Keeping, Login, carry_out};
pub use faults::LoginFault;
pub use lines::{offer_lines, question_lines, start_line};
pub use words::{LoginOrder, are_of_kept, are_of_login, read_kept_order, read_login};
