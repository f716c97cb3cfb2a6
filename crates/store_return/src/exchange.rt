ghost use Rattle.std.specs.Prelude.{◌≡◌, Some, IfErr};
ghost use Rattle.std.specs.List.{AllByRecursion};
ghost use Rattle.sm_world.specs.Disk.{UsesDisk};
ghost use Rattle.sm_world.specs.Outside.{Added};
ghost use Rattle.checkpoint_records.specs.Books.{default_name as the_default};
ghost use Rattle.checkpoint_records.specs.Rules.{KeepsRules};
ghost use Rattle.checkpoint_records.specs.declared.head.Format.TheVariants.{Several};
ghost use Rattle.checkpoint_records.specs.declared.records.Book.{Book as AnyBook};
ghost use Rattle.checkpoint_changes.specs.Changes.{IsChange, apply};
ghost use Rattle.checkpoint_slots.specs.Causes.{is_disk_fault};
ghost use Rattle.checkpoint_slots.specs.Layout.{store_size};
ghost use Rattle.store_return.specs.Exchange.{Exchanges, IsWhyNotExchanged};

use checkpoint_changes::{Delta, delta_of};
use checkpoint_journal::Journal;
use checkpoint_records::Book;
use checkpoint_slots::StoreFault;
use owned_lists::NoMemory;
use sm_world::Disk;
use std::alloc::Global;

/// Appends the delta where it fits, and writes the whole book where it doesn't.
fn write<D: Disk>(
    journal: Journal,
    alloc: Global,
    disk: &mut D,
    delta: &Delta,
    new: &Book,
) -> Result<Journal, StoreFault>
    requires size { (D.outside disk.old).size ≡ store_size }
    requires changes { AllByRecursion (IsChange Several) delta.now }
    requires rules { KeepsRules new.now }
    requires chosen { new.now.name ≡ the_default }
    ensures effects { (old : AnyBook) → apply old delta.now ≡ Some new.now →
        Added (D.outside disk.old).told (D.outside disk.new).told
        (Exchanges journal old new.now result) }
    ensures why_not { IfErr result (IsWhyNotExchanged journal) }
    ensures uses { UsesDisk (D.outside disk.old) (D.outside disk.new) (is_disk_fault result) }
{
    // The proof needs that the epoch has 32 bits.
    let _epoch = new.epoch;
    if journal.fits(delta) {
        return match journal.append(alloc, disk, delta) {
            Ok(journal) => Ok(journal),
            Err((_, fault)) => Err(fault),
        };
    }
    match journal.compact(alloc, disk, new) {
        Ok(journal) => Ok(journal),
        Err((_, fault)) => Err(fault),
    }
}

/// Makes the one book of a store the other: its changes are appended where they fit, and else the
/// whole book is written. They are found before the disk is touched.
pub fn exchange_books<D: Disk>(
    journal: Journal,
    alloc: Global,
    disk: &mut D,
    old: &Book,
    new: &Book,
) -> Result<Journal, StoreFault>
    requires size { (D.outside disk.old).size ≡ store_size }
    requires old_rules { KeepsRules old.now }
    requires old_chosen { old.now.name ≡ the_default }
    requires rules { KeepsRules new.now }
    requires chosen { new.now.name ≡ the_default }
    ensures effects { Added (D.outside disk.old).told (D.outside disk.new).told
        (Exchanges journal old.now new.now result) }
    ensures why_not { IfErr result (IsWhyNotExchanged journal) }
    ensures uses { UsesDisk (D.outside disk.old) (D.outside disk.new) (is_disk_fault result) }
{
    let delta = match delta_of(alloc, old, new) {
        Ok(delta) => delta,
        Err(NoMemory) => return Err(StoreFault::NoMemory),
    };
    write(journal, alloc, disk, &delta, new)
}
