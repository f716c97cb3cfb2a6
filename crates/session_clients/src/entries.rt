ghost use Rattle.std.specs.Prelude.{◌≡◌, IfOk, option_copied};
ghost use Rattle.std.specs.List.{list_any};
ghost use Rattle.session_model.specs.Tables as of;

use checkpoint_records::{Book, Entry, Named};
use owned_lists::{Duplicate, NoMemory};
use std::alloc::Global;
use xsmp_properties::{PropertyTable, same_bytes};

/// The entry that the chosen session of a book has under an ID.
pub fn entry_of<'a>(book: &'a Book, id: &[u8]) -> Option<&'a Entry>
    ensures { option_copied result ≡ of.entry_of id.now book.now }
{
    book.entries
        .as_slice()
        .iter()
        .find(|entry| same_bytes(id, entry.id.as_slice()))
}

/// Whether the chosen session of a book has an entry under an ID.
pub fn is_recorded(book: &Book, id: &[u8]) -> bool
    ensures { result ≡ of.is_recorded id.now book.now }
{
    entry_of(book, id).is_some()
}

fn has_id(entries: &[Entry], id: &[u8]) -> bool
    ensures { result ≡ list_any (of.is_of id.now) entries.now }
{
    entries
        .iter()
        .any(|entry| same_bytes(id, entry.id.as_slice()))
}

fn is_kept_among(others: &[Named], id: &[u8]) -> bool
    ensures { result ≡ list_any (λ other. list_any (of.is_of id.now) other.entries) others.now }
{
    others
        .iter()
        .any(|other| has_id(other.entries.as_slice(), id))
}

/// Whether a book has an entry under an ID, in whichever session.
pub(crate) fn is_kept_id(book: &Book, id: &[u8]) -> bool
    ensures { result ≡ of.is_kept_id id.now book.now }
{
    has_id(book.entries.as_slice(), id) || is_kept_among(book.others.as_slice(), id)
}

/// The table with which a client of this ID begins: a copy of what the book has under the ID, and
/// no properties where it has no such entry.
pub fn first_table(alloc: Global, book: &Book, id: &[u8]) -> Result<PropertyTable, NoMemory>
    ensures { IfOk result (λ table. table ≡ of.first_table book.now id.now) }
{
    match entry_of(book, id) {
        Some(entry) => entry.table.copy(),
        None => PropertyTable::new(alloc),
    }
}
