//! The frame of each program: standard input and output, the words of the command line, the texts
//! that a program gives itself, what is read and printed, and how a run ends with a status.
#![tactic(auto)]

mod console;
mod faults;
mod input;
mod own;
mod words;

pub use console::StandardConsole;
pub use faults::{ProgramFault, conclude, try_line, try_numbered};
pub use input::read_input;
pub use own::OwnTexts;
pub use words::{are_one_word, read_words};
