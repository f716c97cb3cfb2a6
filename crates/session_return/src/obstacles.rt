ghost use Rattle.std.specs.Prelude.{◌≡◌, ◌↔◌, IsTrue, IfOk};
ghost use Rattle.std.specs.List.{IsDistinct, list_any};
ghost use Rattle.std.specs.Str.{bytes_eq};
ghost use Rattle.checkpoint_records.specs.Rules.{ids_of};
ghost use Rattle.session_return.specs.Returns.{IsFound};
ghost use Rattle.session_return.specs.declared.obstacles.Refusal.TheVariants.{NoMemory as LacksMemory};

use crate::entries::entries_in_all;
use checkpoint_records::{Book, Entry, count_entries, count_sessions};
use owned_lists::NoMemory;

/// How many sessions a book may have.
const SESSION_LIMIT: usize = 8;

/// How many entries its sessions may have together.
const ENTRY_LIMIT: usize = 128;

/// What stands in the way.
#[derive(Clone, Copy, Debug, PartialEq, Eq)]
pub enum Obstacle {
    /// The kept book has no entry of the session, or of any.
    NoSession,
    /// An ID would be in two sessions.
    Clash,
    /// There would be more than 128 entries.
    TooManyEntries,
    /// There would be more than eight sessions.
    TooManySessions,
    /// No epoch would be left for a run.
    Worn,
}

/// Why no book is given.
#[derive(Clone, Copy, Debug, PartialEq, Eq)]
pub enum Refusal {
    Stopped(Obstacle),
    NoMemory,
}

impl From<NoMemory> for Refusal {
    ghost from_gives = { λ _ refusal. refusal ≡ LacksMemory };

    fn from(_error: NoMemory) -> Refusal {
        Refusal::NoMemory
    }
}

/// Whether one of these entries has the ID.
fn has_id(entries: &[Entry], id: &[u8]) -> bool
    ensures { result ≡ list_any (λ entry. bytes_eq id.now entry.id) entries.now }
{
    entries.iter().any(|entry| id == entry.id.as_slice())
}

/// Whether no two of these entries have the same ID.
fn ids_differ(entries: &[Entry]) -> bool
    ensures { IsTrue result ↔ IsDistinct bytes_eq (ids_of entries.now) }
{
    let mut left = entries;
    while let [entry, others @ ..] = left {
        if has_id(others, entry.id.as_slice()) {
            return false;
        }
        left = others;
    }
    true
}

/// The first obstacle that stands in the way of a book that would be left, whatever its epoch. These
/// entries come back in it.
pub(crate) fn first_obstacle(back: &[Entry], book: &Book) -> Result<Option<Obstacle>, NoMemory>
    ensures { IfOk result (λ found. IsFound back.now book.now found) }
{
    if back.is_empty() {
        return Ok(Some(Obstacle::NoSession));
    }
    let entries = entries_in_all(book)?;
    if !ids_differ(entries.as_slice()) {
        return Ok(Some(Obstacle::Clash));
    }
    if count_entries(book) > ENTRY_LIMIT {
        return Ok(Some(Obstacle::TooManyEntries));
    }
    if count_sessions(book) > SESSION_LIMIT {
        return Ok(Some(Obstacle::TooManySessions));
    }
    Ok(None)
}
