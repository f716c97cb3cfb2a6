//! What is kept of sessions between their logins.
#![tactic(auto)]

mod counts;
mod entries;
mod head;
mod ids;
mod laws;
mod pending;
mod reading;
mod records;
mod refusals;
mod sameness;
mod session_heads;
mod session_names;
mod session_reading;
mod sessions;
mod shared;
mod spelling;
mod stops;
mod tables;
mod zeroed;

pub use counts::{count_entries, count_sessions};
pub use entries::{take_entry, take_id};
pub use head::{Format, take_number};
pub use ids::is_client_id;
pub use laws::{
    books_read_back, bytes_stand_for_one, choices_are_undone, choices_keep_rules,
    choices_keep_sessions,
};
pub use pending::{all_discards, discards_of, is_named, take_command};
pub use reading::{StoredBook, read_book, read_stored};
pub use records::{Book, Entry, EntryList, Named, NamedList, copy_book};
pub use refusals::BookRefusal;
pub use sameness::{names, same_command};
pub use session_names::{default_name, is_name};
pub use sessions::{choose, chosen_from, place_among, stored, take_out};
pub use shared::SharedEntries;
pub use spelling::{put_command, put_entry, spell_book};
