//! What a user says, in a file, of programs that know no session and are adopted by one.
#![tactic(auto)]

mod choice;
mod files;
mod laws;
mod rules;
mod words;

pub use choice::{are_never, are_restart_only, words_for};
pub use files::{RuleList, RulesFault, read_rules};
pub use laws::rules_are_one_list_or_have_one_bad_line;
pub use rules::Rule;
