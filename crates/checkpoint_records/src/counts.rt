ghost use Rattle.std.specs.Prelude.{◌≡◌, ◌-◌, ◌^◌, length, min};
ghost use Rattle.checkpoint_records.specs.Books.{all_entries, sessions};

use crate::Book;

/// How many entries the sessions of a book have together; no number passes
/// 18,446,744,073,709,551,615.
pub fn count_entries(book: &Book) -> usize
    ensures { result ≡ min (length (all_entries book.now)) (2 ^ 64 - 1) }
{
    let mut count = book.entries.as_slice().len();
    for other in book.others.as_slice() {
        count = count.saturating_add(other.entries.as_slice().len());
    }
    count
}

/// How many sessions of a book have entries.
pub fn count_sessions(book: &Book) -> usize
    ensures { result ≡ min (length (sessions book.now)) (2 ^ 64 - 1) }
{
    let others = book.others.as_slice().len();
    if book.entries.as_slice().is_empty() {
        others
    } else {
        others.saturating_add(1)
    }
}
