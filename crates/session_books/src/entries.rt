ghost use Rattle.std.specs.Prelude.{◌≡◌, ◌++◌, [], None, Some, cond, filter, filter_map, find, is_some, not, true, IfOk, IsTrue, OnOk};
ghost use Rattle.interact_queue.specs.Queue.{is_in};
ghost use Rattle.checkpoint_records.specs.Books.{empty_book};
ghost use Rattle.round_agreement.specs.Agreement.{conns_of};
ghost use Rattle.session_model.specs.Tables.{has_id as has_that_id, is_of, is_recorded as is_recorded_in};
ghost use Rattle.session_model.specs.Books.{is_eligible as may_start_again, recorded as entry_of_table, is_kept as stays, entry_saved, snapshot, next_entry as entry_after, next_entries as entries_after, new_entry as entry_new};
ghost use Rattle.session_clients.specs.Clients.{clients_in};
ghost use Rattle.session_clients.specs.Ids.{registered_ids};
ghost use Rattle.session_books.specs.Plans.{expecting, seen};

use checkpoint_records::{Book, Entry, EntryList};
use ice_values::Array8;
use owned_lists::{Duplicate, NoMemory};
use round_agreement::Round;
use session_clients::{Clients, RegisteredIds, is_recorded};
use sm_world::Conn;
use std::alloc::Global;
use xsmp_properties::{Hint, PropertyTable, has_command, hint_of, same_bytes};

/// Whether a snapshot may become an entry: the client can be started again, and may be.
fn is_eligible(table: &PropertyTable) -> bool
    ensures { result ≡ may_start_again table.now }
{
    has_command(table, b"RestartCommand") && hint_of(table) != Hint::Never
}

/// The entry of a client with this snapshot; None where it can't be started again.
fn recorded(id: &Array8, table: &PropertyTable) -> Result<Option<Entry>, NoMemory>
    ensures { IfOk result (λ entry. entry ≡ entry_of_table id.now table.now) }
{
    if !is_eligible(table) {
        return Ok(None);
    }
    Ok(Some(Entry {
        id: id.copy()?,
        table: table.copy()?,
    }))
}

/// Whether the ID is in the list.
fn has_id(id: &Array8, ids: &[Array8]) -> bool
    ensures { result ≡ has_that_id id.now ids.now }
{
    ids.iter()
        .any(|other| same_bytes(id.as_slice(), other.as_slice()))
}

/// Whether the entry of a client that isn't there stays.
fn is_kept(expected: &[Array8], shutdown: bool, entry: &Entry) -> bool
    ensures { result ≡ stays (expecting expected.now) shutdown entry.now }
{
    match hint_of(&entry.table) {
        Hint::Anyway => true,
        Hint::Immediately => true,
        Hint::IfRunning => has_id(&entry.id, expected) && !shutdown,
        Hint::Never => has_id(&entry.id, expected) && !shutdown,
    }
}

/// What becomes of the entry of a client that isn't there; None where it goes.
fn entry_left(expected: &[Array8], shutdown: bool, entry: &Entry) -> Result<Option<Entry>, NoMemory>
    ensures { IfOk result (λ next.
        next ≡ cond (stays (expecting expected.now) shutdown entry.now) (Some entry.now) None) }
{
    if is_kept(expected, shutdown, entry) {
        Ok(Some(entry.copy()?))
    } else {
        Ok(None)
    }
}

/// Whether a connection is a member of the round. This place is looked at first.
fn is_member(round: &Round, place: usize, conn: Conn) -> bool
    ensures { result ≡ is_in conn (conns_of round.now.members) }
{
    let members = round.members();
    is_at(members, place, conn) || members.contains(&conn)
}

/// Whether a connection stands at this place.
fn is_at(conns: &[Conn], place: usize, conn: Conn) -> bool
    ensures { IsTrue result → is_in conn conns.now ≡ true }
{
    match conns.get(place) {
        Some(other) => *other == conn,
        None => false,
    }
}

/// What becomes of the entry of a client that is there, by its connection; None where it goes.
fn entry_of_client(
    clients: &Clients,
    round: &Round,
    place: usize,
    conn: Conn,
    entry: &Entry,
) -> Result<Option<Entry>, NoMemory>
    ensures { IfOk result (λ next.
        next ≡ entry_saved entry.now (snapshot (seen clients.now empty_book []) round.now conn)) }
{
    if !is_member(round, place, conn) {
        return Ok(Some(entry.copy()?));
    }
    match clients.saved(conn) {
        Some(table) => recorded(&entry.id, table),
        None => Ok(Some(entry.copy()?)),
    }
}

/// What becomes of the entry at this place, where these are the IDs of the clients; None where it
/// goes.
fn next_entry(
    clients: &Clients,
    ids: &RegisteredIds<'_>,
    round: &Round,
    expected: &[Array8],
    place: usize,
    entry: &Entry,
) -> Result<Option<Entry>, NoMemory>
    requires { ids.now ≡ registered_ids (clients_in clients.now) }
    ensures { IfOk result (λ next.
        next ≡ entry_after (seen clients.now empty_book expected.now) round.now entry.now) }
{
    match ids.client_of(entry.id.as_slice()) {
        Some(conn) => entry_of_client(clients, round, place, conn, entry),
        None => entry_left(expected, round.wanted().shutdown, entry),
    }
}

/// Whether the entry at this place is of the ID.
fn has_at(entries: &[Entry], place: usize, id: &[u8]) -> bool
    ensures { IsTrue result → is_some (find (is_of id.now) entries.now) ≡ true }
{
    match entries.get(place) {
        Some(entry) => same_bytes(id, entry.id.as_slice()),
        None => false,
    }
}

/// Whether the book has an entry under an ID. This place is looked at first.
fn has_entry(book: &Book, place: usize, id: &[u8]) -> bool
    ensures { result ≡ is_recorded_in id.now book.now }
{
    has_at(book.entries.as_slice(), place, id) || is_recorded(book, id)
}

/// The entry of the member at this place, where the book has none of it yet.
fn new_entry(
    clients: &Clients,
    book: &Book,
    place: usize,
    conn: Conn,
) -> Result<Option<Entry>, NoMemory>
    ensures { IfOk result (λ entry. entry ≡ entry_new (seen clients.now book.now []) conn) }
{
    let Some(id) = clients.id(conn) else {
        return Ok(None);
    };
    let Some(table) = clients.saved(conn) else {
        return Ok(None);
    };
    if has_entry(book, place, id.as_slice()) {
        return Ok(None);
    }
    recorded(id, table)
}

/// The entries of the book that an agreement of this round writes: each old entry in its place, as
/// far as it stays, and then the new ones in the order of the members. `expected` are the IDs of
/// the opened book with which nobody has registered yet.
pub fn next_entries(
    alloc: Global,
    clients: &Clients,
    round: &Round,
    book: &Book,
    expected: &[Array8],
) -> Result<EntryList, NoMemory>
    ensures { IfOk result (λ entries.
        entries ≡ entries_after (seen clients.now book.now expected.now) round.now) }
{
    let mut entries = old_entries(alloc, clients, round, book, expected)?;
    add_new(clients, round, book, &mut entries)?;
    Ok(entries)
}

/// The old entries, as far as they stay, each as it is from then on.
fn old_entries(
    alloc: Global,
    clients: &Clients,
    round: &Round,
    book: &Book,
    expected: &[Array8],
) -> Result<EntryList, NoMemory>
    ensures { IfOk result (λ entries.
        entries ≡ filter_map (entry_after (seen clients.now empty_book expected.now) round.now)
        book.now.entries) }
{
    let ids = clients.registered_ids()?;
    let old = book.entries.as_slice();
    let mut entries = EntryList::new(alloc);
    for (place, entry) in old.iter().enumerate() {
        if let Some(next) = next_entry(clients, &ids, round, expected, place, entry)? {
            entries.push(next)?;
        }
    }
    Ok(entries)
}

/// Adds the entries of the members that have none yet.
fn add_new(
    clients: &Clients,
    round: &Round,
    book: &Book,
    entries: &mut EntryList,
) -> Result<(), NoMemory>
    ensures { OnOk result
        (entries.new ≡ entries.old ++ filter_map (entry_new (seen clients.now book.now []))
        (conns_of round.now.members)) }
{
    let members = round.members();
    for (place, conn) in members.iter().enumerate() {
        if let Some(entry) = new_entry(clients, book, place, *conn)? {
            entries.push(entry)?;
        }
    }
    Ok(())
}

/// The entries of a book without the one of this ID.
pub fn entries_without(alloc: Global, book: &Book, id: &[u8]) -> Result<EntryList, NoMemory>
    ensures { IfOk result (λ entries.
        entries ≡ filter (λ entry. not (is_of id.now entry)) book.now.entries) }
{
    let mut entries = EntryList::new(alloc);
    for entry in book.entries.as_slice() {
        if !same_bytes(id, entry.id.as_slice()) {
            entries.push(entry.copy()?)?;
        }
    }
    Ok(entries)
}
