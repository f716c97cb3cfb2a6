//! The files of stores and of kept books, which are read and never written, and what stands in them.
#![tactic(auto)]

mod view;

pub use view::{check_store, kept_book, list_sessions, present_book};
