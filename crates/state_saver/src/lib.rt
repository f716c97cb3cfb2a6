//! What saves the state of a program that keeps it in one file: a numbered copy of the file for each
//! save, and how the program is started again with it.
#![tactic(auto)]

mod files;
mod laws;
mod memory;
mod path;
mod plan;
mod saver;
mod words;

pub use files::{FILE_LIMIT, Files};
pub use laws::copies_have_paths_of_their_own;
pub use memory::MemFiles;
pub use path::Path;
pub use plan::SavePlan;
pub use saver::{Saver, copy_path};
