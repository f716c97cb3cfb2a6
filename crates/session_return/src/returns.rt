ghost use Rattle.std.specs.Prelude.{◌≡◌, ◌<◌, IfOk, IfNone, IfSome, ◌≤◌};
ghost use Rattle.checkpoint_records.specs.Books.{entries_of, sessions};
ghost use Rattle.checkpoint_changes.specs.Changes.{with_entries_at};
ghost use Rattle.discard_ledger.specs.Discards.{without_commands};
ghost use Rattle.session_return.specs.Returns.{Gives, book_of as book_in, entries_back as all_back, epoch_behind as epoch_above, sessions_back as sessions_left};

use crate::entries::entries_in_all;
use crate::obstacles::{Obstacle, Refusal, first_obstacle};
use checkpoint_records::{
    Book, EntryList, NamedList, all_discards, choose, chosen_from, copy_book, default_name, stored,
};
use discard_ledger::Ledger;
use owned_lists::{CommandList, Duplicate, NoMemory, Octets};
use std::alloc::Global;

/// What comes back of a kept book.
#[derive(Drop)]
pub enum Which {
    /// The session of this name. The others stay as they are in the store.
    One(Octets),
    /// All sessions, in the place of those of the store.
    All,
}

/// How many epochs are left out where nobody knows which IDs were given.
const LEAP: u32 = 65_536;

/// Copies of the entries that come back.
pub fn entries_back(alloc: Global, which: &Which, kept: &Book) -> Result<EntryList, NoMemory>
    ensures { IfOk result (λ entries. entries ≡ all_back which.now kept.now) }
{
    match which {
        Which::One(name) => {
            let chosen = choose(alloc, copy_book(kept)?, name.as_slice())?;
            chosen.entries.into_list()
        }
        Which::All => entries_in_all(kept),
    }
}

/// The sessions of the store, where this one has the entries that it was kept with.
fn one_back(
    alloc: Global,
    name: &Octets,
    kept: &Book,
    present: &Book,
) -> Result<NamedList, NoMemory>
    ensures { IfOk result (λ all. all
        ≡ with_entries_at name.now (entries_of name.now (sessions kept.now)) (sessions present.now)) }
{
    let back = choose(alloc, copy_book(kept)?, name.as_slice())?;
    let left = choose(alloc, copy_book(present)?, name.as_slice())?;
    stored(name.copy()?, back.entries, left.others)
}

fn sessions_of(book: &Book) -> Result<NamedList, NoMemory>
    ensures { IfOk result (λ all. all ≡ sessions book.now) }
{
    let others = book.others.copy()?;
    stored(book.name.copy()?, book.entries.copy()?, others)
}

fn sessions_back(
    alloc: Global,
    which: &Which,
    kept: &Book,
    present: &Book,
) -> Result<NamedList, NoMemory>
    ensures { IfOk result (λ all. all
        ≡ sessions_left which.now (sessions kept.now) (sessions present.now)) }
{
    match which {
        Which::One(name) => one_back(alloc, name, kept, present),
        Which::All => sessions_of(kept),
    }
}

/// Copies of the commands that aren't named.
fn unnamed(
    alloc: Global,
    pending: &CommandList,
    named: &CommandList,
) -> Result<CommandList, NoMemory>
    ensures { IfOk result (λ left. left ≡ without_commands named.now pending.now) }
{
    let mut ledger = Ledger::new(alloc, pending.copy()?);
    ledger.note(named);
    ledger.pending().copy()
}

/// The book of these sessions, with those of the commands that none of them names. Its epoch is 0.
fn book_of(alloc: Global, all: NamedList, pending: &CommandList) -> Result<Book, NoMemory>
    ensures { IfOk result (λ book. book ≡ book_in all pending.now 0) }
{
    let name = default_name(alloc)?;
    let mut book = chosen_from(alloc, name, all, CommandList::new(alloc), 0)?;
    let named = all_discards(alloc, &book)?;
    book.pending = unnamed(alloc, pending, &named)?;
    Ok(book)
}

/// The epoch that is left. None where no run could begin over it.
fn epoch_behind(present: u32, kept: u32) -> Option<u32>
    ensures some { IfSome result (λ epoch. (epoch ≡ epoch_above present kept)
        × (epoch < 4294967295)) }
    ensures none { IfNone result (4294967295 ≤ epoch_above present kept) }
{
    let epoch = if 0 < present && kept <= present {
        present
    } else {
        kept.checked_add(LEAP)?
    };
    if epoch < u32::MAX { Some(epoch) } else { None }
}

/// The book that is left where this comes back over the store's book, or the first obstacle that
/// stands in the way. Both books keep their entries, which the new one shares.
pub fn put_back(alloc: Global, which: &Which, kept: &Book, present: &Book) -> Result<Book, Refusal>
    ensures { Gives which.now kept.now present.now result }
{
    let back = entries_back(alloc, which, kept)?;
    let all = sessions_back(alloc, which, kept, present)?;
    let mut book = book_of(alloc, all, &present.pending)?;
    if let Some(obstacle) = first_obstacle(back.as_slice(), &book)? {
        return Err(Refusal::Stopped(obstacle));
    }
    match epoch_behind(present.epoch, kept.epoch) {
        Some(epoch) => {
            book.epoch = epoch;
            Ok(book)
        }
        None => Err(Refusal::Stopped(Obstacle::Worn)),
    }
}
