ghost use Rattle.std.specs.Prelude.{◌≡◌, ◌<◌, ◌^◌, ◌++◌, length, IfOk, OnOk};
ghost use Rattle.ice_values.specs.Cells.{zeros};
ghost use Rattle.ice_values.specs.Numbers.{card32};
ghost use Rattle.ice_values.specs.declared.numbers.Endian.TheVariants.{Lsb};
ghost use Rattle.checkpoint_records.specs.declared.head.Format.TheVariants.{Several};
ghost use Rattle.checkpoint_changes.specs.Changes.{change_cells};
ghost use Rattle.checkpoint_changes.specs.Amendments.{delta_bytes};

use crate::changes::{EPOCH, PEND, PUT, REMOVE, UNPEND};
use crate::{Change, Delta};
use checkpoint_records::{put_command, put_entry};
use ice_values::{Endian, Spelled, put_card32};
use owned_lists::{NoMemory, Octets};
use std::alloc::Global;

fn put_head(code: u32, number: u32, out: &mut Octets) -> Result<(), NoMemory>
    ensures { OnOk result (out.new ≡ out.old ++ zeros (card32 Lsb code ++ card32 Lsb number)) }
{
    put_card32(Endian::Lsb, code, out)?;
    put_card32(Endian::Lsb, number, out)
}

fn put_change(alloc: Global, change: &Change, out: &mut Octets) -> Result<(), NoMemory>
    requires { length (change_cells Several change.now) < 2 ^ 32 }
    ensures { OnOk result (out.new ≡ out.old ++ zeros (change_cells Several change.now)) }
{
    match change {
        Change::Epoch(epoch) => put_head(EPOCH, *epoch, out),
        Change::Remove(id) => {
            put_head(REMOVE, 0, out)?;
            id.put(Endian::Lsb, out)
        }
        Change::Put(name, entry) => {
            put_head(PUT, 0, out)?;
            name.put(Endian::Lsb, out)?;
            put_entry(entry, out)
        }
        Change::Unpend(place) => put_head(UNPEND, *place, out),
        Change::Pend(command) => {
            put_head(PEND, 0, out)?;
            put_command(alloc, command, out)
        }
    }
}

/// The bytes of a delta, as they stand in an amendment behind the count of them. Each change is two
/// CARD32 with the least significant byte first, its code, which is 1, 2, 4, 5 or 6, and a number,
/// and then an ARRAY8 with the ID, an ARRAY8 with the name of a session and an entry as in a book,
/// or a command as in a book. The number is the epoch or the place, and otherwise 0.
pub fn spell_delta(alloc: Global, delta: &Delta) -> Result<Octets, NoMemory>
    requires { length (delta_bytes (change_cells Several) delta.now) < 2 ^ 32 }
    ensures { IfOk result (λ octets. octets ≡ delta_bytes (change_cells Several) delta.now) }
{
    let mut out = Octets::new(alloc);
    for change in delta.as_slice() {
        put_change(alloc, change, &mut out)?;
    }
    Ok(out)
}
