ghost use Rattle.std.specs.Prelude.{◌≡◌, ◌<◌, false, true, length, IfOk, MatchOption, HoldsAt};
ghost use Rattle.std.specs.List.{AllWithin, list_any};
ghost use Rattle.std.specs.Str.{bytes_eq};
ghost use Rattle.checkpoint_changes.specs.Changes.{applied, has_entry, session_with, sessions_with, sessions_without, with_entry, without, without_at};
ghost use Rattle.checkpoint_changes.specs.declared.changes.Change.TheVariants.{Put, Remove, Unpend};

use crate::Change;
use checkpoint_records::{
    Book, Entry, EntryList, Named, NamedList, SharedEntries, chosen_from, stored, take_out,
};
use owned_lists::{CommandList, Duplicate, NoMemory, Octets};
use std::alloc::Global;
use xsmp_properties::same_bytes;

/// The place of the first entry with this ID.
fn place_of(entries: &[Entry], id: &[u8]) -> Option<usize>
    ensures { MatchOption result (AllWithin (λ entry.
        bytes_eq entry.id id.now ≡ false) entries.now 0 (length entries.now)) (λ place.
        (place < length entries.now) × HoldsAt (λ entry.
        bytes_eq entry.id id.now ≡ true) entries.now place
        × AllWithin (λ entry. bytes_eq entry.id id.now ≡ false) entries.now 0 place) }
{
    entries
        .iter()
        .position(|entry| same_bytes(entry.id.as_slice(), id))
}

/// The entries but for the one with this ID. None where there is none.
fn without(entries: EntryList, id: &[u8]) -> Option<EntryList>
    ensures { result ≡ without id.now entries }
{
    let place = place_of(entries.as_slice(), id)?;
    let mut items = entries.into_vec();
    items.remove(place);
    Some(EntryList::from_vec(items))
}

/// An entry takes the place of the one with its ID. Where there is none it goes last.
fn with_entry(mut entries: EntryList, entry: Entry) -> Result<EntryList, NoMemory>
    ensures { IfOk result (λ changed. changed ≡ with_entry entry entries) }
{
    match place_of(entries.as_slice(), entry.id.as_slice()) {
        Some(place) => {
            let mut items = entries.into_vec();
            items[place] = entry;
            Ok(EntryList::from_vec(items))
        }
        None => {
            entries.push(entry)?;
            Ok(entries)
        }
    }
}

/// The commands but for the one at this place, counted from 0. None where there is none.
fn without_at(commands: CommandList, place: u32) -> Option<CommandList>
    ensures { result ≡ without_at place commands }
{
    if place as usize >= commands.as_slice().len() {
        return None;
    }
    let mut items = commands.into_vec();
    items.remove(place as usize);
    Some(CommandList::from_vec(items))
}

fn has_entry(entries: &[Entry], id: &[u8]) -> bool
    ensures { result ≡ has_entry id.now entries.now }
{
    entries.iter().any(|entry| entry.id.as_slice() == id)
}

/// Whether a session has an entry with this ID.
fn has_entry_in(sessions: &[Named], id: &[u8]) -> bool
    ensures { result
        ≡ list_any (λ session. has_entry id.now session.entries) sessions.now }
{
    sessions
        .iter()
        .any(|session| has_entry(session.entries.as_slice(), id))
}

/// The name of the session that has an entry with this ID.
fn session_with(sessions: &[Named], id: &[u8]) -> Result<Option<Octets>, NoMemory>
    ensures { IfOk result (λ name. name ≡ session_with id.now sessions.now) }
{
    for session in sessions {
        if has_entry(session.entries.as_slice(), id) {
            return Ok(Some(session.name.copy()?));
        }
    }
    Ok(None)
}

/// The sessions without the entry of this ID. None where none has it.
fn sessions_without(
    alloc: Global,
    sessions: NamedList,
    id: &[u8],
) -> Result<Option<NamedList>, NoMemory>
    ensures { IfOk result (λ left. left ≡ sessions_without id.now sessions) }
{
    let name = match session_with(sessions.as_slice(), id)? {
        Some(name) => name,
        None => return Ok(None),
    };
    let (entries, others) = take_out(alloc, sessions, name.as_slice())?;
    match without(entries.into_list()?, id) {
        Some(left) => {
            let entries = SharedEntries::new(alloc, left)?;
            Ok(Some(stored(name, entries, others)?))
        }
        None => Ok(None),
    }
}

/// The sessions where this one has an entry, which takes the place of the one with its ID, or goes
/// last. None where another session has the ID.
fn sessions_with(
    alloc: Global,
    sessions: NamedList,
    name: Octets,
    entry: Entry,
) -> Result<Option<NamedList>, NoMemory>
    ensures { IfOk result (λ put. put ≡ sessions_with name entry sessions) }
{
    let (entries, others) = take_out(alloc, sessions, name.as_slice())?;
    if has_entry_in(others.as_slice(), entry.id.as_slice()) {
        return Ok(None);
    }
    let together = with_entry(entries.into_list()?, entry)?;
    let entries = SharedEntries::new(alloc, together)?;
    Ok(Some(stored(name, entries, others)?))
}

/// The book without the entry of this ID. None where no session has it.
fn removed(alloc: Global, book: Book, id: &[u8]) -> Result<Option<Book>, NoMemory>
    ensures { IfOk result (λ next. next ≡ applied book (Remove id.now)) }
{
    let name = book.name.copy()?;
    let sessions = stored(book.name, book.entries, book.others)?;
    match sessions_without(alloc, sessions, id)? {
        Some(sessions) => {
            let next = chosen_from(alloc, name, sessions, book.pending, book.epoch)?;
            Ok(Some(next))
        }
        None => Ok(None),
    }
}

/// The book with an entry in the session of this name. None where another session has its ID.
fn put(alloc: Global, book: Book, session: Octets, entry: Entry) -> Result<Option<Book>, NoMemory>
    ensures { IfOk result (λ next. next ≡ applied book (Put session entry)) }
{
    let name = book.name.copy()?;
    let sessions = stored(book.name, book.entries, book.others)?;
    match sessions_with(alloc, sessions, session, entry)? {
        Some(sessions) => {
            let next = chosen_from(alloc, name, sessions, book.pending, book.epoch)?;
            Ok(Some(next))
        }
        None => Ok(None),
    }
}

/// The book without the pending command at this place. None where there is none.
fn unpended(book: Book, place: u32) -> Option<Book>
    ensures { result ≡ applied book (Unpend place) }
{
    let pending = without_at(book.pending, place)?;
    Some(Book {
        entries: book.entries,
        pending,
        epoch: book.epoch,
        name: book.name,
        others: book.others,
    })
}

/// The book after a change. None where it takes out what isn't there, or puts an entry whose ID
/// another session has.
pub(crate) fn applied(
    alloc: Global,
    mut book: Book,
    change: Change,
) -> Result<Option<Book>, NoMemory>
    ensures { IfOk result (λ next. next ≡ applied book change) }
{
    match change {
        Change::Epoch(epoch) => Ok(Some(Book { epoch, ..book })),
        Change::Remove(id) => removed(alloc, book, id.as_slice()),
        Change::Put(name, entry) => put(alloc, book, name, entry),
        Change::Unpend(place) => Ok(unpended(book, place)),
        Change::Pend(command) => {
            book.pending.push(command)?;
            Ok(Some(book))
        }
    }
}
