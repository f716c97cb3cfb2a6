ghost use Rattle.std.specs.Prelude.{◌≡◌, ◌++◌, IfOk, OnOk};
ghost use Rattle.checkpoint_records.specs.Books.{all_entries};

use checkpoint_records::{Book, Entry, EntryList};
use owned_lists::{Duplicate, NoMemory};

/// Adds copies of entries.
fn add_entries(entries: &[Entry], list: &mut EntryList) -> Result<(), NoMemory>
    ensures { OnOk result (list.new ≡ list.old ++ entries.now) }
{
    for entry in entries {
        list.push(entry.copy()?)?;
    }
    Ok(())
}

/// Copies of all entries of a book, those of the chosen session first.
pub(crate) fn entries_in_all(book: &Book) -> Result<EntryList, NoMemory>
    ensures { IfOk result (λ entries. entries ≡ all_entries book.now) }
{
    let mut list = book.entries.copy()?.into_list()?;
    for other in book.others.as_slice() {
        add_entries(other.entries.as_slice(), &mut list)?;
    }
    Ok(list)
}
