ghost use Rattle.std.specs.Prelude.{◌≡◌, length, IfErr, IfOk};
ghost use Rattle.checkpoint_slots.specs.Layout.{store_size};
ghost use Rattle.checkpoint_records.specs.Rules.{KeepsRules};
ghost use Rattle.store_return.specs.Kept.{IsKept, IsNotKept};

use crate::Fault;
use checkpoint_records::{Book, BookRefusal, read_book};
use checkpoint_slots::STORE_BYTES;
use owned_lists::{NoMemory, Octets};
use std::alloc::Global;
use store_report::{Finding, look_into};

/// The most bytes that a book may have, which are those of a slot.
pub const BOOK_LIMIT: u64 = 8_388_608;

/// The book of a whole store.
fn book_in(alloc: Global, file: Octets) -> Result<Book, Fault>
    requires { length file ≡ store_size }
    ensures book { IfOk result (IsKept file) }
    ensures rules { IfOk result KeepsRules }
    ensures fault { IfErr result (IsNotKept file) }
{
    match look_into(alloc, file) {
        Ok(Finding::Opens(book)) => Ok(book),
        Ok(Finding::Damaged(at)) => Err(Fault::KeptDamaged(at)),
        Ok(Finding::WrongSize(size)) => Err(Fault::KeptSize(size)),
        Err(NoMemory) => Err(Fault::NoMemory),
    }
}

/// The book that was kept in a file: that of a store, where the file has its size, and else the one
/// that its bytes spell.
pub fn read_kept(alloc: Global, file: Octets) -> Result<Book, Fault>
    ensures book { IfOk result (IsKept file) }
    ensures rules { IfOk result KeepsRules }
    ensures fault { IfErr result (IsNotKept file) }
{
    let size = file.len() as u64;
    if size == STORE_BYTES {
        return book_in(alloc, file);
    }
    if size > BOOK_LIMIT {
        return Err(Fault::KeptSize(size));
    }
    match read_book(alloc, file.as_slice()) {
        Ok(book) => Ok(book),
        Err(BookRefusal::Damaged { at }) => Err(Fault::KeptDamaged(at)),
        Err(BookRefusal::NoMemory) => Err(Fault::NoMemory),
    }
}
