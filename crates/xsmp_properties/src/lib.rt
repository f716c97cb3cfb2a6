//! What clients say of themselves: tables of properties, and what is read from them.
#![tactic(auto)]

mod commands;
mod hints;
mod limits;
mod named;
mod refusals;
mod shared;
mod shown;
mod sizes;
mod table;
mod texts;

pub use commands::{
    command_of, directory_of, environment_of, has_command, in_pairs, is_environment,
};
pub use hints::{Hint, hint_of};
pub use refusals::SetRefusal;
pub use table::PropertyTable;
pub use texts::{are_words, is_text, same_bytes, same_texts};
