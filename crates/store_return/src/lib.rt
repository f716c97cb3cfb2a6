//! A session of a kept book is put back into a store, or all of them.
#![tactic(auto)]

mod exchange;
mod faults;
mod kept;
mod lines;
mod program;
mod restoring;
mod words;

pub use exchange::exchange_books;
pub use faults::Fault;
pub use kept::{BOOK_LIMIT, read_kept};
pub use lines::{Counts, counts_of};
pub use program::carry_out_order;
pub use restoring::{opened, restore, show};
pub use words::{Marks, Order, are_of_restore, read_order, session_of, take_marks};
