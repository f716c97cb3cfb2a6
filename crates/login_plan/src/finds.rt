ghost use Rattle.std.specs.Prelude.{◌≡◌, filter, IfOk};
ghost use Rattle.login_plan.specs.Logins.{began_with as began_with_last, is_behind as stands_behind, is_loss as are_lost, is_lost as was_lost, may_be_offered as may_come, must_ask as has_to_ask, offered as offers, starts as started};

use checkpoint_records::{Book, choose, copy_book, count_entries};
use kept_books::{Kept, Shelf, top_epoch};
use owned_lists::{Duplicate, NoMemory};
use restart_plan::plan;
use std::alloc::Global;

/// How much is offered at most.
const LIMIT: usize = 5;

/// How many programs a login to the session starts over a book.
pub fn starts(alloc: Global, name: &[u8], book: &Book) -> Result<usize, NoMemory>
    ensures { IfOk result (λ count. count ≡ started name.now book.now) }
{
    let chosen = choose(alloc, copy_book(book)?, name)?;
    let commands = plan(alloc, &chosen)?;
    Ok(commands.as_slice().len())
}

/// How many programs the session began with last.
pub fn began_with(alloc: Global, name: &[u8], shelf: &[Kept]) -> Result<usize, NoMemory>
    ensures { IfOk result (λ count. count ≡ began_with_last name.now shelf.now) }
{
    for kept in shelf {
        if name == kept.session.as_slice() {
            return starts(alloc, name, &kept.book);
        }
    }
    Ok(0)
}

/// Whether the store would start less than half of what the session began with.
fn is_loss(alloc: Global, name: &[u8], shelf: &[Kept], present: &Book) -> Result<bool, NoMemory>
    ensures { IfOk result (λ loss. loss ≡ are_lost name.now shelf.now present.now) }
{
    let left = starts(alloc, name, present)?;
    let before = began_with(alloc, name, shelf)?;
    Ok(left < before && left < before - left)
}

/// Whether the store was lost: it has no checkpoint, though a book was kept of one that had.
pub fn is_lost(shelf: &[Kept], present: &Book) -> bool
    ensures { result ≡ was_lost shelf.now present.now }
{
    0 < top_epoch(shelf) && present.epoch == 0
}

/// Whether the store is behind what was kept.
pub(crate) fn is_behind(shelf: &[Kept], present: &Book) -> bool
    ensures { result ≡ stands_behind shelf.now present.now }
{
    present.epoch < top_epoch(shelf)
}

fn may_be_offered(alloc: Global, lost: bool, name: &[u8], kept: &Kept) -> Result<bool, NoMemory>
    ensures { IfOk result (λ may. may ≡ may_come lost name.now kept.now) }
{
    if lost {
        return Ok(0 < count_entries(&kept.book));
    }
    if name != kept.session.as_slice() {
        return Ok(false);
    }
    Ok(0 < starts(alloc, name, &kept.book)?)
}

fn all_offered(alloc: Global, lost: bool, name: &[u8], shelf: &[Kept]) -> Result<Shelf, NoMemory>
    ensures { IfOk result (λ all. all ≡ filter (may_come lost name.now) shelf.now) }
{
    let mut all = Shelf::new(alloc);
    for kept in shelf {
        let may = may_be_offered(alloc, lost, name, kept)?;
        if may {
            all.push(kept.copy()?)?;
        }
    }
    Ok(all)
}

/// What may come back, the newest first: what is kept of the session and starts something, or, where the
/// store was lost, what has an entry of any session.
pub fn offered(
    alloc: Global,
    name: &[u8],
    shelf: &[Kept],
    present: &Book,
) -> Result<Shelf, NoMemory>
    ensures { IfOk result (λ few. few ≡ offers name.now shelf.now present.now) }
{
    let lost = is_lost(shelf, present);
    let mut few = all_offered(alloc, lost, name, shelf)?.into_vec();
    few.truncate(LIMIT);
    Ok(Shelf::from_vec(few))
}

/// Whether something was lost, and something may come back.
pub fn must_ask(
    alloc: Global,
    name: &[u8],
    shelf: &[Kept],
    present: &Book,
) -> Result<bool, NoMemory>
    ensures { IfOk result (λ asks. asks ≡ has_to_ask name.now shelf.now present.now) }
{
    let loss = is_loss(alloc, name, shelf, present)?;
    let offers = offered(alloc, name, shelf, present)?;
    Ok((loss || is_lost(shelf, present)) && 0 < offers.as_slice().len())
}
