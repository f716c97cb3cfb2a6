//! Texts of others as people read them: nothing of a text can move the cursor, turn the direction of what
//! stands beside it, or hide. What a client said of itself goes through here where a program prints it
//! for people and no format of its own says how it is spelled.
#![tactic(auto)]

mod shown;

pub use shown::{is_whole, put_word, put_words, shown_word};
