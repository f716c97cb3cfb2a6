ghost use Rattle.std.specs.Prelude.{◌≡◌, ◌↔◌, IsTrue, IfOk};
ghost use Rattle.std.specs.List.{list_any};
ghost use Rattle.checkpoint_records.specs.Books.{discards, same_command as is_same, names as is_named};

use crate::{Book, Entry};
use owned_lists::{Command, NoMemory};
use std::alloc::Global;
use xsmp_properties::{command_of, same_texts};

/// Whether two commands are the same, which they are where their words are equal, whatever their
/// directories and environments.
pub fn same_command(first: &Command, second: &Command) -> bool
    ensures value { result ≡ is_same first.now second.now }
    ensures exact { IsTrue result ↔ (first.now.words ≡ second.now.words) }
{
    same_texts(first.words.as_slice(), second.words.as_slice())
}

/// Whether the DiscardCommand of one of these entries is the same command as this one.
fn is_discarded_by(alloc: Global, entries: &[Entry], command: &Command) -> Result<bool, NoMemory>
    ensures { IfOk result (λ named. named ≡ list_any (is_same command.now) (discards entries.now)) }
{
    for entry in entries {
        let discard = command_of(alloc, &entry.table, b"DiscardCommand")?;
        if let Some(discard) = discard {
            if same_command(command, &discard) {
                return Ok(true);
            }
        }
    }
    Ok(false)
}

/// Whether the DiscardCommand of an entry of the book, in whichever session, is the same command as
/// this one.
pub fn names(alloc: Global, book: &Book, command: &Command) -> Result<bool, NoMemory>
    ensures { IfOk result (λ named. named ≡ is_named book.now command.now) }
{
    let discarded = is_discarded_by(alloc, book.entries.as_slice(), command)?;
    if discarded {
        return Ok(true);
    }
    for other in book.others.as_slice() {
        let further = is_discarded_by(alloc, other.entries.as_slice(), command)?;
        if further {
            return Ok(true);
        }
    }
    Ok(false)
}
