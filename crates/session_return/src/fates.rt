ghost use Rattle.std.specs.Prelude.{◌≡◌, Some, IfOk};
ghost use Rattle.session_return.specs.Returns.{fate_by as told_by, fate_of as told_of};

use checkpoint_records::{Book, Entry, is_named, names};
use owned_lists::{Command, NoMemory};
use std::alloc::Global;
use xsmp_properties::command_of;

/// What is known of the state that an entry needs, which comes back.
#[derive(Clone, Copy, Debug, PartialEq, Eq)]
pub enum Fate {
    /// It has no DiscardCommand, so nobody but its program discards its state.
    Own,
    /// The store's book names its DiscardCommand.
    There,
    /// Its DiscardCommand is pending in the store's book; it may have been started already.
    Due,
    /// The store's book knows nothing of its DiscardCommand.
    Unkept,
}

fn fate_by(alloc: Global, present: &Book, discard: &Command) -> Result<Fate, NoMemory>
    ensures { IfOk result (λ fate. fate ≡ told_by present.now (Some discard.now)) }
{
    if names(alloc, present, discard)? {
        return Ok(Fate::There);
    }
    if is_named(present.pending.as_slice(), discard) {
        return Ok(Fate::Due);
    }
    Ok(Fate::Unkept)
}

/// What the store's book knows of the state of an entry.
pub fn fate_of(alloc: Global, present: &Book, entry: &Entry) -> Result<Fate, NoMemory>
    ensures { IfOk result (λ fate. fate ≡ told_of present.now entry.now) }
{
    match command_of(alloc, &entry.table, b"DiscardCommand")? {
        Some(discard) => fate_by(alloc, present, &discard),
        None => Ok(Fate::Own),
    }
}
