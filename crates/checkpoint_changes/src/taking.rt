ghost use Rattle.std.specs.Prelude.{◌≡◌, ◌<◌, ◌^◌, length, IfOk};
ghost use Rattle.std.specs.Option.{option_map};
ghost use Rattle.ice_values.specs.Cells.{zeros};
ghost use Rattle.checkpoint_records.specs.Finding.{Finds};
ghost use Rattle.checkpoint_changes.specs.Changes.{IsChange, change_cells, number_of, part_cells, put_code};
ghost use Rattle.checkpoint_records.specs.declared.head.Format.{Format as AnyFormat};
ghost use Rattle.checkpoint_records.specs.declared.head.Format.TheVariants.{Single, Several};
ghost use Rattle.checkpoint_changes.specs.Taking.{IsOfCode, framed};

use crate::Change;
use crate::changes::{EPOCH, PEND, PUT, PUT_ALONE, REMOVE, UNPEND};
use checkpoint_records::{
    Format, default_name, is_name, take_command, take_entry, take_id, take_number,
};
use owned_lists::NoMemory;
use std::alloc::Global;

/// The byte of an open gate.
pub(crate) const OPEN: u8 = 0xa5;

fn take_remove(alloc: Global, bytes: &[u8]) -> Result<Option<(Change, &[u8])>, NoMemory>
    ensures { (format : AnyFormat) → IfOk result (λ found.
        Finds (λ change. zeros (part_cells format change)) (IsOfCode format 2) bytes.now
        (option_map (λ x. (x.0, x.1.now)) found)) }
{
    match take_id(alloc, bytes)? {
        Some((id, rest)) => Ok(Some((Change::Remove(id), rest))),
        None => Ok(None),
    }
}

/// An entry of `default`.
fn take_put_alone(alloc: Global, bytes: &[u8]) -> Result<Option<(Change, &[u8])>, NoMemory>
    ensures { IfOk result (λ found.
        Finds (λ change. zeros (part_cells Single change)) (IsOfCode Single 3) bytes.now
        (option_map (λ x. (x.0, x.1.now)) found)) }
{
    match take_entry(alloc, u32::MAX, bytes)? {
        Some((entry, rest)) => Ok(Some((Change::Put(default_name(alloc)?, entry), rest))),
        None => Ok(None),
    }
}

/// An entry behind the name of its session.
fn take_put(alloc: Global, bytes: &[u8]) -> Result<Option<(Change, &[u8])>, NoMemory>
    ensures { IfOk result (λ found.
        Finds (λ change. zeros (part_cells Several change)) (IsOfCode Several 6) bytes.now
        (option_map (λ x. (x.0, x.1.now)) found)) }
{
    let (name, rest) = match take_id(alloc, bytes)? {
        Some(found) => found,
        None => return Ok(None),
    };
    if !is_name(name.as_slice()) {
        return Ok(None);
    }
    match take_entry(alloc, u32::MAX, rest)? {
        Some((entry, rest)) => Ok(Some((Change::Put(name, entry), rest))),
        None => Ok(None),
    }
}

fn take_pend(alloc: Global, bytes: &[u8]) -> Result<Option<(Change, &[u8])>, NoMemory>
    ensures { (format : AnyFormat) → IfOk result (λ found.
        Finds (λ change. zeros (part_cells format change)) (IsOfCode format 5) bytes.now
        (option_map (λ x. (x.0, x.1.now)) found)) }
{
    match take_command(alloc, bytes)? {
        Some((command, rest)) => Ok(Some((Change::Pend(command), rest))),
        None => Ok(None),
    }
}

/// The code of an entry that is put, in amendments behind a book of this format.
fn put_code(format: Format) -> u32
    ensures { result ≡ put_code format }
{
    match format {
        Format::Single => PUT_ALONE,
        Format::Several => PUT,
    }
}

/// The entry that is put, in amendments behind a book of this format.
fn take_any_put(
    alloc: Global,
    format: Format,
    bytes: &[u8],
) -> Result<Option<(Change, &[u8])>, NoMemory>
    ensures { IfOk result (λ found.
        Finds (λ change. zeros (part_cells format change))
        (IsOfCode format (put_code format)) bytes.now (option_map (λ x. (x.0, x.1.now)) found)) }
{
    match format {
        Format::Single => take_put_alone(alloc, bytes),
        Format::Several => take_put(alloc, bytes),
    }
}

/// The change of this code that has no number.
fn take_part(
    alloc: Global,
    format: Format,
    code: u32,
    bytes: &[u8],
) -> Result<Option<(Change, &[u8])>, NoMemory>
    requires numbered { (code ≡ 1 → ⊥) × (code ≡ 4 → ⊥) }
    ensures { IfOk result (λ found.
        Finds (λ change. zeros (part_cells format change)) (IsOfCode format code) bytes.now
        (option_map (λ x. (x.0, x.1.now)) found)) }
{
    if code == REMOVE {
        return take_remove(alloc, bytes);
    }
    if code == put_code(format) {
        return take_any_put(alloc, format, bytes);
    }
    if code == PEND {
        return take_pend(alloc, bytes);
    }
    Ok(None)
}

/// The change of this code and this number, behind both.
fn take_behind(
    alloc: Global,
    format: Format,
    code: u32,
    number: u32,
    bytes: &[u8],
) -> Result<Option<(Change, &[u8])>, NoMemory>
    ensures { IfOk result (λ found.
        Finds (λ change. zeros (part_cells format change)) (λ change.
        IsOfCode format code change × (number_of change ≡ number)) bytes.now
        (option_map (λ x. (x.0, x.1.now)) found)) }
{
    if code == EPOCH {
        return Ok(Some((Change::Epoch(number), bytes)));
    }
    if code == UNPEND {
        return Ok(Some((Change::Unpend(number), bytes)));
    }
    if number != 0 {
        return Ok(None);
    }
    take_part(alloc, format, code, bytes)
}

/// The change at the front of the bytes, and what follows it, in amendments behind a book of this
/// format.
pub(crate) fn take_change(
    alloc: Global,
    format: Format,
    bytes: &[u8],
) -> Result<Option<(Change, &[u8])>, NoMemory>
    ensures { IfOk result (λ found.
        Finds (λ change. zeros (change_cells format change)) (IsChange format) bytes.now
        (option_map (λ x. (x.0, x.1.now)) found)) }
{
    let Some((code, rest)) = take_number(bytes) else {
        return Ok(None);
    };
    let Some((number, rest)) = take_number(rest) else {
        return Ok(None);
    };
    take_behind(alloc, format, code, number, rest)
}

/// The bytes of the delta of the amendment at the front, and what follows it.
pub(crate) fn take_delta(bytes: &[u8]) -> Option<(&[u8], &[u8])>
    ensures { Finds framed (λ delta. length delta < 2 ^ 32) bytes.now
        (option_map (λ x. (x.0.now, x.1.now)) result) }
{
    let (gate, rest) = take_number(bytes)?;
    if gate != OPEN as u32 {
        return None;
    }
    let (count, rest) = take_number(rest)?;
    rest.split_at_checked(count as usize)
}
