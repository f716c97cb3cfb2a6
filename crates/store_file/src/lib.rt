//! The store as a file, and small files that are replaced whole. What they hold is told to nobody;
//! the faults are counted.
#![tactic(auto)]

mod disk;
mod files;

pub use disk::FileDisk;
pub use files::{check_file, create, lock_name, replace};
