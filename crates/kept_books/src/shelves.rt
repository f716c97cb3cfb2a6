ghost use Rattle.std.specs.Prelude.{◌≡◌, ◌++◌, ◌∷◌, filter, IfOk, OnOk};
ghost use Rattle.kept_books.specs.Shelves.{Keeps, differs as has_others, left_beside, not_of, top_epoch as greatest_epoch, top_number as greatest_number};
ghost use Rattle.kept_books.specs.declared.shelves.KeepRefusal.TheVariants.{NoMemory as LacksMemory};

use crate::sameness::is_same_for;
use checkpoint_records::{Book, copy_book};
use owned_lists::{Duplicate, ListOf, NoMemory, Octets};
use std::alloc::Global;

/// How many books of a session stay beside a new one.
const LIMIT: usize = 4;

/// A book that was kept as a login to a session began.
#[derive(Drop)]
pub struct Kept {
    /// By which it is named; no other on the shelf has it.
    pub number: u64,
    /// The name of the session whose login it was.
    pub session: Octets,
    pub book: Book,
}

/// What is kept. Of each session the newest stands first.
pub type Shelf = ListOf<Kept>;

/// Why nothing is kept.
#[derive(Clone, Copy, Debug, PartialEq, Eq)]
pub enum KeepRefusal {
    /// The greatest number is taken.
    NoNumber,
    NoMemory,
}

impl From<NoMemory> for KeepRefusal {
    ghost from_gives = { λ _ refusal. refusal ≡ LacksMemory };

    fn from(_error: NoMemory) -> KeepRefusal {
        KeepRefusal::NoMemory
    }
}

impl Duplicate for Kept {
    fn copy(&self) -> Result<Kept, NoMemory> {
        Ok(Kept {
            number: self.number,
            session: self.session.copy()?,
            book: copy_book(&self.book)?,
        })
    }
}

/// The greatest number on the shelf, and 0 where nothing is kept.
pub fn top_number(shelf: &[Kept]) -> u64
    ensures { result ≡ greatest_number shelf.now }
{
    let mut top = 0u64;
    for kept in shelf {
        top = top.max(kept.number);
    }
    top
}

/// The greatest epoch on the shelf, and 0 where nothing is kept.
pub fn top_epoch(shelf: &[Kept]) -> u32
    ensures { result ≡ greatest_epoch shelf.now }
{
    let mut top = 0u32;
    for kept in shelf {
        top = top.max(kept.book.epoch);
    }
    top
}

/// Whether this is kept of the session, which has other entries in it than in the book.
fn differs(alloc: Global, name: &[u8], book: &Book, kept: &Kept) -> Result<bool, NoMemory>
    ensures { IfOk result (λ others. others ≡ has_others name.now book.now kept.now) }
{
    if name != kept.session.as_slice() {
        return Ok(false);
    }
    Ok(!is_same_for(alloc, name, &kept.book, book)?)
}

/// Copies of what is kept of the session with other entries.
fn differing(alloc: Global, name: &[u8], book: &Book, shelf: &[Kept]) -> Result<Shelf, NoMemory>
    ensures { IfOk result (λ left. left ≡ filter (has_others name.now book.now) shelf.now) }
{
    let mut left = Shelf::new(alloc);
    for kept in shelf {
        let others = differs(alloc, name, book, kept)?;
        if others {
            left.push(kept.copy()?)?;
        }
    }
    Ok(left)
}

/// Adds copies of what is kept of other sessions.
fn add_others(name: &[u8], shelf: &[Kept], left: &mut Shelf) -> Result<(), NoMemory>
    ensures { OnOk result (left.new ≡ left.old ++ not_of name.now shelf.now) }
{
    for kept in shelf {
        if name != kept.session.as_slice() {
            left.push(kept.copy()?)?;
        }
    }
    Ok(())
}

/// What stays on the shelf beside a book of the session.
pub fn kept_beside(
    alloc: Global,
    name: &[u8],
    book: &Book,
    shelf: &[Kept],
) -> Result<Shelf, NoMemory>
    ensures { IfOk result (λ left. left
        ≡ left_beside name.now book.now shelf.now ++ not_of name.now shelf.now) }
{
    let mut few = differing(alloc, name, book, shelf)?.into_vec();
    few.truncate(LIMIT);
    let mut left = Shelf::from_vec(few);
    add_others(name, shelf, &mut left)?;
    Ok(left)
}

/// This book first, and behind it what stays.
fn with_first(number: u64, name: &[u8], book: &Book, left: Shelf) -> Result<Shelf, NoMemory>
    ensures { IfOk result (λ shelf. shelf
        ≡ record { number = number; session = name.now; book = book.now } ∷ left) }
{
    let mut all = left.into_vec();
    let alloc = *all.allocator();
    let new = Kept {
        number,
        session: Octets::from_slice(alloc, name)?,
        book: copy_book(book)?,
    };
    all.insert(0, new)?;
    Ok(Shelf::from_vec(all))
}

/// The shelf where a login to the session keeps the book: it stands first, under the next number. Of the
/// session go those with equal entries, and all but four of the others.
pub fn keep(alloc: Global, name: &[u8], book: &Book, shelf: &[Kept]) -> Result<Shelf, KeepRefusal>
    ensures { Keeps name.now book.now shelf.now result }
{
    let number = match top_number(shelf).checked_add(1) {
        Some(number) => number,
        None => return Err(KeepRefusal::NoNumber),
    };
    let left = kept_beside(alloc, name, book, shelf)?;
    Ok(with_first(number, name, book, left)?)
}
