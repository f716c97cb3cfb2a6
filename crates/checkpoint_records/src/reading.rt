ghost use Rattle.std.specs.Prelude.{◌-◌, ℕ, Result, length, IfOk, IfErr};
ghost use Rattle.checkpoint_records.specs.Spelling.{Spells};
ghost use Rattle.checkpoint_records.specs.Damage.{IsDamaged, IsRefused, StandFor, Gives};
ghost use Rattle.checkpoint_records.specs.Finding.{IsStop};
ghost use Rattle.checkpoint_records.specs.declared.records.Book.{Book as AnyBook};
ghost use Rattle.checkpoint_records.specs.declared.head.Format.{Format as AnyFormat};

use crate::head::{Format, take_head};
use crate::pending::take_pending;
use crate::session_names::default_name;
use crate::session_reading::take_sessions;
use crate::sessions::chosen_from;
use crate::stops::Stop;
use crate::{Book, BookRefusal};
use std::alloc::Global;

/// A book, and the format that its bytes have.
#[derive(Drop)]
pub struct StoredBook {
    pub book: Book,
    pub format: Format,
}

/// The book that bytes spell, or how many bytes are left at the place of the damage.
fn read_parts(alloc: Global, bytes: &[u8]) -> Result<StoredBook, Stop>
    ensures book { IfOk result (λ stored. Spells stored.format bytes.now stored.book) }
    ensures stop { IfErr result (λ stop.
        IsStop bytes.now (λ left. IsDamaged bytes.now (length bytes.now - left)) stop) }
{
    let left = bytes.len();
    let (head, rest) = match take_head(bytes) {
        Some(found) => found,
        None => return Err(Stop::Broken { left }),
    };
    let (sessions, rest) = match take_sessions(alloc, head, rest) {
        Ok(taken) => taken,
        Err(stop) => return Err(stop),
    };
    let (pending, rest) = match take_pending(alloc, sessions.as_slice(), head.pending, rest) {
        Ok(taken) => taken,
        Err(stop) => return Err(stop),
    };
    let left = rest.len();
    if left > 0 {
        return Err(Stop::Broken { left });
    }
    let name = default_name(alloc)?;
    let book = chosen_from(alloc, name, sessions, pending, head.epoch)?;
    Ok(StoredBook {
        book,
        format: head.format,
    })
}

/// The book that bytes spell, with the format that they have. Where they spell none that keeps the
/// rules they are damaged, as `read_book` says.
pub fn read_stored(alloc: Global, bytes: &[u8]) -> Result<StoredBook, BookRefusal>
    ensures book { IfOk result (λ stored. Spells stored.format bytes.now stored.book) }
    ensures damaged { IfErr result (λ refusal. IsRefused bytes.now refusal) }
{
    match read_parts(alloc, bytes) {
        Ok(stored) => Ok(stored),
        Err(Stop::NoMemory) => Err(BookRefusal::NoMemory),
        Err(Stop::Broken { left }) => {
            let at = bytes.len() - left;
            Err(BookRefusal::Damaged { at: at as u64 })
        }
    }
}

/// The book that bytes spell, in which `default` is chosen. Where they spell none that keeps the
/// rules they are damaged: at 0 where there are fewer than 16 bytes, the format is neither 1 nor 2,
/// or there are more than 8 sessions (in format 1, more than 128 entries) or more than 320 pending
/// commands; otherwise at the start of the first head of a session, entry or pending command that
/// can't be cut off, has unused or padding bytes that aren't zero, or breaks a rule; otherwise at
/// the end of the last one, where bytes are left.
pub fn read_book(alloc: Global, bytes: &[u8]) -> Result<Book, BookRefusal>
    ensures book { IfOk result (λ book. (format : AnyFormat) × Spells format bytes.now book) }
    ensures damaged { IfErr result (λ refusal. IsRefused bytes.now refusal) }
    ensures exact { (answer : Result AnyBook ℕ) → StandFor bytes.now answer → Gives result answer }
{
    match read_stored(alloc, bytes) {
        Ok(stored) => Ok(stored.book),
        Err(refusal) => Err(refusal),
    }
}
