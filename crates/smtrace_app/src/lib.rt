//! The top call of `smtrace`: its words, what it prints and its statuses.
#![tactic(auto)]

mod fault;
mod program;

pub use program::smtrace_main;
