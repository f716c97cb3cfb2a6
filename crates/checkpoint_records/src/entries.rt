ghost use Rattle.std.specs.Prelude.{◌≡◌, ◌∷◌, ◌++◌, ◌≤◌, [], ℕ, length, IfOk, IfErr};
ghost use Rattle.std.specs.List.{list_any};
ghost use Rattle.std.specs.Option.{option_map};
ghost use Rattle.std.specs.Str.{bytes_eq};
ghost use Rattle.ice_values.specs.Cells.{zeros};
ghost use Rattle.ice_values.specs.Properties.{array8, IsArray8, property_list, IsProperty, IsListed};
ghost use Rattle.ice_values.specs.declared.numbers.Endian.TheVariants.{Lsb};
ghost use Rattle.checkpoint_records.specs.Books.{entries_in};
ghost use Rattle.checkpoint_records.specs.Finding.{Finds, AreInFront, IsStuck, EndsEarly, IsStop};
ghost use Rattle.checkpoint_records.specs.Parts.{AreEntries, AreEntriesBehind};
ghost use Rattle.checkpoint_records.specs.Rules.{IsEntry};
ghost use Rattle.checkpoint_records.specs.Spelling.{entry_cells};

use crate::ids::is_client_id;
use crate::stops::Stop;
use crate::tables::table_of;
use crate::zeroed::take_zeroed;
use crate::{Entry, EntryList, Named};
use ice_values::{Array8, PropertyList};
use owned_lists::NoMemory;
use std::alloc::Global;

/// The ARRAY8 of an ID at the front, and what follows it. None where there is none, or one of more
/// than 65,536 bytes.
pub fn take_id(alloc: Global, bytes: &[u8]) -> Result<Option<(Array8, &[u8])>, NoMemory>
    ensures { IfOk result (λ found.
        Finds (λ id. zeros (array8 Lsb id)) (λ id.
        IsArray8 id × (length (array8 Lsb id) ≤ 65536)) bytes.now
        (option_map (λ x. (x.0, x.1.now)) found)) }
{
    take_zeroed(alloc, bytes)
}

fn take_properties(alloc: Global, bytes: &[u8]) -> Result<Option<(PropertyList, &[u8])>, NoMemory>
    ensures { IfOk result (λ found.
        Finds (λ items. zeros (property_list Lsb items)) (λ items.
        IsListed IsProperty items × (length (property_list Lsb items) ≤ 65536)) bytes.now
        (option_map (λ x. (x.0, x.1.now)) found)) }
{
    take_zeroed(alloc, bytes)
}

/// The entry at the front of the bytes, and what follows it. Its ID is one of a run up to this
/// epoch.
pub fn take_entry(
    alloc: Global,
    epoch: u32,
    bytes: &[u8],
) -> Result<Option<(Entry, &[u8])>, NoMemory>
    ensures { IfOk result (λ found.
        Finds (λ entry. zeros (entry_cells entry)) (IsEntry epoch) bytes.now
        (option_map (λ x. (x.0, x.1.now)) found)) }
{
    let (id, rest) = match take_id(alloc, bytes)? {
        Some(found) => found,
        None => return Ok(None),
    };
    if !is_client_id(epoch, id.as_slice()) {
        return Ok(None);
    }
    let (properties, rest) = match take_properties(alloc, rest)? {
        Some(found) => found,
        None => return Ok(None),
    };
    match table_of(alloc, &properties)? {
        Some(table) => Ok(Some((Entry { id, table }, rest))),
        None => Ok(None),
    }
}

fn has_id(entries: &[Entry], id: &[u8]) -> bool
    ensures { result ≡ list_any (λ entry. bytes_eq entry.id id.now) entries.now }
{
    entries.iter().any(|entry| entry.id.as_slice() == id)
}

/// Whether an entry of one of these sessions has this ID.
fn has_id_before(sessions: &[Named], id: &[u8]) -> bool
    ensures { result
        ≡ list_any (λ session. list_any (λ entry. bytes_eq entry.id id.now) session.entries)
        sessions.now }
{
    sessions
        .iter()
        .any(|session| has_id(session.entries.as_slice(), id))
}

/// Whether one of these sessions, or one of these entries, has this ID.
fn is_taken(sessions: &[Named], before: &[Entry], id: &[u8]) -> bool
    ensures { result ≡ list_any (λ entry. bytes_eq entry.id id.now)
        (entries_in sessions.now ++ before.now) }
{
    has_id_before(sessions, id) || has_id(before, id)
}

/// The entry that stands behind others of its session and behind other sessions, and what follows
/// it.
fn take_next<'a>(
    alloc: Global,
    epoch: u32,
    sessions: &[Named],
    before: &[Entry],
    bytes: &'a [u8],
) -> Result<(Entry, &'a [u8]), Stop>
    requires { AreEntriesBehind epoch sessions.now before.now }
    ensures next { IfOk result (λ x. AreEntriesBehind epoch sessions.now (before.now ++ x.0 ∷ [])
        × (bytes.now ≡ zeros (entry_cells x.0) ++ x.1.now)) }
    ensures stop { IfErr result (λ stop.
        IsStop bytes.now (λ left. (left ≡ length bytes.now)
        × IsStuck entry_cells (AreEntriesBehind epoch sessions.now) before.now bytes.now) stop) }
{
    let left = bytes.len();
    match take_entry(alloc, epoch, bytes)? {
        Some((entry, rest)) => {
            if is_taken(sessions, before, entry.id.as_slice()) {
                return Err(Stop::Broken { left });
            }
            Ok((entry, rest))
        }
        None => Err(Stop::Broken { left }),
    }
}

/// So many entries of a session at the front, behind other sessions, and what follows them.
pub(crate) fn take_entries<'a>(
    alloc: Global,
    epoch: u32,
    sessions: &[Named],
    count: u32,
    bytes: &'a [u8],
) -> Result<(EntryList, &'a [u8]), Stop>
    requires { AreEntries epoch (entries_in sessions.now) }
    ensures all { IfOk result (λ x.
        AreInFront entry_cells (AreEntriesBehind epoch sessions.now) bytes.now x.0 x.1.now
        × (length x.0 ≡ count)) }
    ensures early { IfErr result (λ stop.
        IsStop bytes.now (EndsEarly entry_cells (AreEntriesBehind epoch sessions.now) bytes.now
        count) stop) }
{
    let mut entries = EntryList::new(alloc);
    let mut rest = bytes;
    for _i in 0..count {
        match take_next(alloc, epoch, sessions, entries.as_slice(), rest) {
            Ok((entry, after)) => {
                entries.push(entry)?;
                rest = after;
            }
            Err(stop) => return Err(stop),
        }
    }
    Ok((entries, rest))
}
