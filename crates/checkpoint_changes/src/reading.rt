ghost use Rattle.std.specs.Prelude.{◌≡◌, ◌≤◌, ◌<◌, ◌^◌, ℕ, Option, Result, Ok, length, IfOk, IfErr, IfSome, IsTrue};
ghost use Rattle.std.specs.Option.{option_map};
ghost use Rattle.checkpoint_records.specs.Damage.{Gives};
ghost use Rattle.checkpoint_records.specs.Rules.{KeepsRules};
ghost use Rattle.checkpoint_records.specs.declared.records.Book.{Book as AnyBook};
ghost use Rattle.checkpoint_changes.specs.Amendments.{ReadsOn, StopsAt, SlotReads, HasCause, IsSlotRefused, is_at_end, told_length};
ghost use Rattle.checkpoint_records.specs.Books.{default_name};
ghost use Rattle.checkpoint_changes.specs.Changes.{IsChange, change_cells};
ghost use Rattle.checkpoint_changes.specs.Parts.{HasParts};
ghost use Rattle.checkpoint_changes.specs.Together.{FitBut};
ghost use Rattle.checkpoint_changes.specs.Taking.{AppliesAll, TakesAmendment};

use crate::drafts::{Draft, changed};
use crate::rules::draft_keeps_rules;
use crate::taking::{OPEN, take_change, take_delta};
use checkpoint_records::{Book, BookRefusal, Format, read_stored};
use ice_values::Array8List;
use owned_lists::NoMemory;
use std::alloc::Global;

/// Whether amendments end here: there is no room for one, or its gate isn't open.
fn is_at_end(bytes: &[u8]) -> bool
    ensures { result ≡ is_at_end bytes.now }
{
    bytes.len() < 8 || bytes[0] != OPEN
}

/// The draft after all the changes that these bytes are.
fn apply_all(
    alloc: Global,
    format: Format,
    draft: Draft,
    bytes: &[u8],
) -> Result<Option<Draft>, NoMemory>
    requires parts { HasParts draft.book }
    requires fits { IsTrue draft.fits → FitBut draft.doubts draft.book }
    ensures parts { IfOk result (λ found. IfSome found (λ draft. HasParts draft.book)) }
    ensures book { IfOk result (λ found.
        AppliesAll format draft.book bytes.now (option_map (λ draft. draft.book) found)) }
    ensures fits { IfOk result (λ found.
        IfSome found (λ draft. IsTrue draft.fits → FitBut draft.doubts draft.book)) }
{
    let mut draft = draft;
    let mut left = bytes;
    while !left.is_empty() {
        let (change, rest) = match take_change(alloc, format, left)? {
            Some(taken) => taken,
            None => return Ok(None),
        };
        draft = match changed(alloc, draft, change)? {
            Some(next) => next,
            None => return Ok(None),
        };
        left = rest;
    }
    Ok(Some(draft))
}

/// The book after the amendment at the front, and what follows it.
fn take_amendment(
    alloc: Global,
    format: Format,
    book: Book,
    bytes: &[u8],
) -> Result<Option<(Book, &[u8])>, NoMemory>
    requires rules { KeepsRules book }
    requires chosen { book.name ≡ default_name }
    requires epoch { book.epoch < 2 ^ 32 }
    ensures { IfOk result (λ found.
        TakesAmendment format book bytes.now (option_map (λ x. (x.0, x.1.now)) found)) }
{
    let Some((changes, rest)) = take_delta(bytes) else {
        return Ok(None);
    };
    if changes.is_empty() {
        return Ok(Some((book, rest)));
    }
    let draft = Draft {
        book,
        fits: true,
        doubts: Array8List::new(alloc),
    };
    let Some(next) = apply_all(alloc, format, draft, changes)? else {
        return Ok(None);
    };
    if draft_keeps_rules(&next) {
        Ok(Some((next.book, rest)))
    } else {
        Ok(None)
    }
}

/// The book after all amendments, and how many bytes they have.
fn read_on(
    alloc: Global,
    format: Format,
    first: Book,
    bytes: &[u8],
) -> Result<(Book, u32), BookRefusal>
    requires rules { KeepsRules first }
    requires chosen { first.name ≡ default_name }
    requires epoch { first.epoch < 2 ^ 32 }
    requires few { length bytes.now < 2 ^ 32 }
    ensures book { IfOk result (λ x.
        ReadsOn (change_cells format) (IsChange format) first bytes.now x.0 x.1) }
    ensures damaged { IfErr result (λ refusal.
        HasCause (StopsAt (change_cells format) (IsChange format) first bytes.now) refusal) }
{
    let mut book = first;
    let mut left = bytes;
    while !is_at_end(left) {
        match take_amendment(alloc, format, book, left)? {
            Some((next, rest)) => {
                book = next;
                left = rest;
            }
            None => {
                let at = bytes.len() - left.len();
                return Err(BookRefusal::Damaged { at: at as u64 });
            }
        }
    }
    Ok((book, (bytes.len() - left.len()) as u32))
}

/// The length behind which the next amendment may be appended, if any may: none behind a book of
/// format 1.
fn told_length(format: Format, more: u32) -> Option<u32>
    ensures { result ≡ told_length format more }
{
    match format {
        Format::Single => None,
        Format::Several => Some(more),
    }
}

/// The book that the bytes of a slot behind its head lead to, in which `default` is chosen, and how
/// many bytes its amendments have, behind which the next may be appended; None behind a book of
/// format 1, to which nothing is appended. The first `n` bytes are those of a book, and the
/// amendments stand behind it. They are damaged where `read_book` finds the book damaged, or at the
/// gate of the first amendment that is none of the book so far: it passes the end, has bytes that
/// aren't zero where they should be, can't be cut into changes, takes out what isn't there, or
/// leads to a book that breaks a rule.
pub fn read_slot(alloc: Global, bytes: &[u8], n: u32) -> Result<(Book, Option<u32>), BookRefusal>
    requires within { n ≤ length bytes.now }
    requires size { length bytes.now ≤ 8388592 }
    ensures book { IfOk result (λ x. SlotReads bytes.now n (Ok x)) }
    ensures damaged { IfErr result (λ refusal. IsSlotRefused bytes.now n refusal) }
    ensures exact { (answer : Result (AnyBook × Option ℕ) ℕ) → SlotReads bytes.now n answer →
        Gives result answer }
{
    let (front, behind) = bytes.split_at(n as usize);
    let first = match read_stored(alloc, front) {
        Ok(first) => first,
        Err(refusal) => return Err(refusal),
    };
    match read_on(alloc, first.format, first.book, behind) {
        Ok((book, more)) => Ok((book, told_length(first.format, more))),
        Err(BookRefusal::Damaged { at }) => Err(BookRefusal::Damaged { at: n as u64 + at }),
        Err(BookRefusal::NoMemory) => Err(BookRefusal::NoMemory),
    }
}
