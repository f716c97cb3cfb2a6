//! The outside of a real program that is wrapped: its files, how it is started, and the console. What
//! they hold is told to nobody; the faults are counted.
#![tactic(auto)]

mod files;
mod keeping;
mod lying;
mod starting;
mod wrapped;

pub use wrapped::WrappedFiles;
