ghost use Rattle.std.specs.Prelude.{◌≡◌, ◌<◌, ◌≤◌, ◌∷◌, ◌++◌, true, false, length, take, drop, IfOk, MatchOption, HoldsAt};
ghost use Rattle.std.specs.List.{AllWithin};
ghost use Rattle.std.specs.Str.{bytes_eq};
ghost use Rattle.checkpoint_records.specs.Books.{chosen_from, choose as chosen_of, entries_of, others_than, is_before as comes_before, stored as all_stored, with_session};
ghost use Rattle.checkpoint_records.specs.declared.records.Named.{Named as AnySession};

use crate::session_names::is_before;
use crate::{Book, EntryList, Named, NamedList, SharedEntries};
use owned_lists::{CommandList, NoMemory, Octets};
use std::alloc::Global;

/// The place of the first session with this name.
fn place_of(sessions: &[Named], name: &[u8]) -> Option<usize>
    ensures { MatchOption result (AllWithin (λ session.
        bytes_eq name.now session.name ≡ false) sessions.now 0 (length sessions.now)) (λ place.
        (place < length sessions.now) × HoldsAt (λ session.
        bytes_eq name.now session.name ≡ true) sessions.now place
        × AllWithin (λ session. bytes_eq name.now session.name ≡ false) sessions.now 0 place) }
{
    sessions
        .iter()
        .position(|session| name == session.name.as_slice())
}

/// The place of the first session that this name comes before.
fn first_behind(sessions: &[Named], name: &[u8]) -> Option<usize>
    ensures { MatchOption result (AllWithin (λ session.
        comes_before name.now session.name ≡ false) sessions.now 0 (length sessions.now)) (λ place.
        (place < length sessions.now) × HoldsAt (λ session.
        comes_before name.now session.name ≡ true) sessions.now place
        × AllWithin (λ session. comes_before name.now session.name ≡ false) sessions.now 0 place) }
{
    sessions
        .iter()
        .position(|session| is_before(name, session.name.as_slice()))
}

/// The place of a session with this name among those that stand in the order of their names.
pub fn place_among(sessions: &[Named], name: &[u8]) -> usize
    ensures within { result ≤ length sessions.now }
    ensures place { (session : AnySession) → session.name ≡ name.now →
        with_session session sessions.now ≡ take result sessions.now ++ session
        ∷ drop result sessions.now }
{
    match first_behind(sessions, name) {
        Some(place) => place,
        None => sessions.len(),
    }
}

/// The sessions with one more in its place by its name, unless it has no entries.
pub fn stored(
    name: Octets,
    entries: SharedEntries,
    others: NamedList,
) -> Result<NamedList, NoMemory>
    ensures { IfOk result (λ sessions. sessions ≡ all_stored name entries others) }
{
    if entries.as_slice().is_empty() {
        return Ok(others);
    }
    let mut sessions = others.into_vec();
    let place = place_among(sessions.as_slice(), name.as_slice());
    sessions.insert(place, Named { name, entries })?;
    Ok(NamedList::from_vec(sessions))
}

/// The entries of the session of this name, which are none where there is no such session, and the
/// other sessions.
pub fn take_out(
    alloc: Global,
    sessions: NamedList,
    name: &[u8],
) -> Result<(SharedEntries, NamedList), NoMemory>
    ensures entries { IfOk result (λ parted. parted.0 ≡ entries_of name.now sessions) }
    ensures others { IfOk result (λ parted. parted.1 ≡ others_than name.now sessions) }
{
    match place_of(sessions.as_slice(), name) {
        Some(place) => {
            let mut others = sessions.into_vec();
            let session = others.remove(place);
            Ok((session.entries, NamedList::from_vec(others)))
        }
        None => {
            let none = SharedEntries::new(alloc, EntryList::new(alloc))?;
            Ok((none, sessions))
        }
    }
}

/// The book of these sessions, in which the one with this name is chosen. Where there is no such
/// session it has no entries.
pub fn chosen_from(
    alloc: Global,
    name: Octets,
    sessions: NamedList,
    pending: CommandList,
    epoch: u32,
) -> Result<Book, NoMemory>
    ensures { IfOk result (λ book. book ≡ chosen_from name sessions pending epoch) }
{
    let (entries, others) = take_out(alloc, sessions, name.as_slice())?;
    Ok(Book {
        entries,
        pending,
        epoch,
        name,
        others,
    })
}

/// The same sessions, pending commands and epoch, where the session of this name is chosen. Want of
/// memory spends the book.
pub fn choose(alloc: Global, book: Book, name: &[u8]) -> Result<Book, NoMemory>
    ensures { IfOk result (λ chosen. chosen ≡ chosen_of name.now book) }
{
    let name = Octets::from_slice(alloc, name)?;
    let sessions = stored(book.name, book.entries, book.others)?;
    chosen_from(alloc, name, sessions, book.pending, book.epoch)
}
