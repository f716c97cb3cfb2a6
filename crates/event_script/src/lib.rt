//! The scripts of rehearsals: lines that say what happens outside, one event a line.
#![tactic(auto)]

mod laws;
mod script;

pub use laws::a_script_says_one_list_or_has_one_first_bad_line;
pub use script::{SCRIPT_LIMIT, ScriptFault, Taken, read_script};
