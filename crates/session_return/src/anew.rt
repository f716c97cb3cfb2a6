ghost use Rattle.std.specs.Prelude.{◌≡◌, IfOk};
ghost use Rattle.session_return.specs.Returns.{begun_anew as begun};

use checkpoint_records::{Book, choose, chosen_from, copy_book, default_name};
use owned_lists::NoMemory;
use std::alloc::Global;

/// The store's book without the entries of this session, which begins anew over it. The new book
/// shares the entries of the others.
pub fn begin_anew(alloc: Global, name: &[u8], present: &Book) -> Result<Book, NoMemory>
    ensures { IfOk result (λ book. book ≡ begun name.now present.now) }
{
    let left = choose(alloc, copy_book(present)?, name)?;
    let chosen = default_name(alloc)?;
    chosen_from(alloc, chosen, left.others, left.pending, left.epoch)
}
