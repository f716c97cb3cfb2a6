ghost use Rattle.std.specs.Prelude.{◌≡◌, IfOk};
ghost use Rattle.std.specs.Cmp.Lexicographic.{pointwise};
ghost use Rattle.checkpoint_changes.specs.Plain.{equal_entry};
ghost use Rattle.kept_books.specs.Shelves.{entries_at as entries_in, same_for};

use checkpoint_records::{Book, Entry, SharedEntries, choose, copy_book};
use owned_lists::NoMemory;
use std::alloc::Global;
use xsmp_properties::same_bytes;

/// The entries that a session has in a book, which are none where there is no such session.
pub fn entries_at(alloc: Global, name: &[u8], book: &Book) -> Result<SharedEntries, NoMemory>
    ensures { IfOk result (λ entries. entries ≡ entries_in name.now book.now) }
{
    let chosen = choose(alloc, copy_book(book)?, name)?;
    Ok(chosen.entries)
}

/// Whether both have equal entries in the same order.
fn are_equal(first: &[Entry], second: &[Entry]) -> bool
    ensures { result ≡ pointwise equal_entry first.now second.now }
{
    let mut left = second;
    for entry in first {
        let [other, others @ ..] = left else {
            return false;
        };
        if !same_bytes(entry.id.as_slice(), other.id.as_slice())
            || !entry.table.is_same(&other.table)
        {
            return false;
        }
        left = others;
    }
    left.is_empty()
}

/// Whether a session has equal entries in both books.
pub(crate) fn is_same_for(
    alloc: Global,
    name: &[u8],
    first: &Book,
    second: &Book,
) -> Result<bool, NoMemory>
    ensures { IfOk result (λ same. same ≡ same_for name.now first.now second.now) }
{
    let one = entries_at(alloc, name, first)?;
    let other = entries_at(alloc, name, second)?;
    Ok(are_equal(one.as_slice(), other.as_slice()))
}
