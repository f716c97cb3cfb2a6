//! The commands that discard states which no client needs any more: which are yet to be run, and
//! which may be run now.
#![tactic(auto)]

mod commands;
mod ledger;

pub use ledger::Ledger;
