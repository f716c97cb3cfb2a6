//! Words of a command line that stand in pairs, a name and its value each.
#![tactic(auto)]

mod words;

pub use words::{begin_with, is_word, path_of, value_from, value_of, word_at, words_of_option};
