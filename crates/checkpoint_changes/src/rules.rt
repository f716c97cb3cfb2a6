ghost use Rattle.std.specs.Prelude.{◌≡◌, ◌↔◌, ◌≤◌, false, not, length, IsTrue, IfOk};
ghost use Rattle.std.specs.List.{AllByRecursion, IsDistinct, list_any};
ghost use Rattle.checkpoint_records.specs.Books.{all_entries, same_command, sessions};
ghost use Rattle.checkpoint_records.specs.Rules.{KeepsRules};
ghost use Rattle.checkpoint_changes.specs.Parts.{HasParts};
ghost use Rattle.checkpoint_changes.specs.Together.{AreOfRuns, FitBut};

use crate::drafts::{Draft, is_one_of, one_collides_in, one_discards_in};
use checkpoint_records::{Book, Entry, Named, count_entries, count_sessions, is_client_id};
use owned_lists::{Command, NoMemory};
use std::alloc::Global;

const SESSION_LIMIT: usize = 8;

const ENTRY_LIMIT: usize = 128;

/// How many pending commands a book may have.
pub(crate) const PENDING_LIMIT: usize = 320;

/// Whether each ID is one of a run up to this epoch.
fn are_of_runs(epoch: u32, entries: &[Entry]) -> bool
    ensures { IsTrue result ↔ AreOfRuns epoch entries.now }
{
    for entry in entries {
        if !is_client_id(epoch, entry.id.as_slice()) {
            return false;
        }
    }
    true
}

/// Whether each ID of these sessions is one of a run up to this epoch.
fn others_are_of_runs(epoch: u32, others: &[Named]) -> bool
    ensures { IsTrue result ↔ AllByRecursion (λ other.
        AreOfRuns epoch other.entries) others.now }
{
    others
        .iter()
        .all(|other| are_of_runs(epoch, other.entries.as_slice()))
}

/// Whether each ID of a book is one of a run up to this epoch.
pub(crate) fn all_are_of_runs(epoch: u32, book: &Book) -> bool
    ensures { IsTrue result ↔ AreOfRuns epoch (all_entries book.now) }
{
    are_of_runs(epoch, book.entries.as_slice()) && others_are_of_runs(epoch, book.others.as_slice())
}

/// Whether no two commands are the same.
fn are_distinct(commands: &[Command]) -> bool
    ensures { IsTrue result ↔ IsDistinct same_command commands.now }
{
    let mut left = commands;
    while let [command, others @ ..] = left {
        if is_one_of(command, others) {
            return false;
        }
        left = others;
    }
    true
}

/// Whether a book has no more sessions, entries and pending commands than the rules allow.
fn is_within_limits(book: &Book) -> bool
    ensures { IsTrue result ↔ (length (sessions book.now) ≤ 8)
        × (length (all_entries book.now) ≤ 128) × (length book.now.pending ≤ 320) }
{
    count_sessions(book) <= SESSION_LIMIT
        && count_entries(book) <= ENTRY_LIMIT
        && book.pending.as_slice().len() <= PENDING_LIMIT
}

/// As `keeps_rules`, which takes memory no more.
fn is_by_rules(book: &Book) -> bool
    requires { HasParts book.now }
    ensures { IsTrue result ↔ KeepsRules book.now }
{
    if !is_within_limits(book) {
        return false;
    }
    let pending = book.pending.as_slice();
    if !all_are_of_runs(book.epoch, book) || !are_distinct(pending) {
        return false;
    }
    !one_discards_in(book)
}

/// Whether a book that was put together from tested parts keeps the rules together too: it has at
/// most 8 sessions, 128 entries and 320 pending commands, each ID is of a run up to the book's epoch,
/// no two pending commands are the same, and none is the DiscardCommand of an entry.
pub fn keeps_rules(_alloc: Global, book: &Book) -> Result<bool, NoMemory>
    requires { HasParts book.now }
    ensures { IfOk result (λ kept. IsTrue kept ↔ KeepsRules book.now) }
{
    Ok(is_by_rules(book))
}

/// Whether a draft keeps the rules. Where its parts are known to fit together but for the entries in
/// doubt, and these name nothing that is pending any more, this is a comparison of three numbers;
/// otherwise each part is tested against the others.
pub(crate) fn draft_keeps_rules(draft: &Draft) -> bool
    requires parts { HasParts draft.now.book }
    requires fits { IsTrue draft.now.fits → FitBut draft.now.doubts draft.now.book }
    ensures { IsTrue result ↔ KeepsRules draft.now.book }
{
    if draft.fits && !one_collides_in(draft.doubts.as_slice(), &draft.book) {
        is_within_limits(&draft.book)
    } else {
        is_by_rules(&draft.book)
    }
}
