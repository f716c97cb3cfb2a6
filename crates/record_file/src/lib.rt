//! The file of a session's record.
#![tactic(auto)]

mod file;

pub use file::RecordFile;
