//! The store as a journal: a change of the book is appended behind it where it fits, and the whole
//! book is written anew where it doesn't.
#![tactic(auto)]

mod journal;

pub use journal::Journal;
