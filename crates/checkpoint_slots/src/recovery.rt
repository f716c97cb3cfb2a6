ghost use Rattle.std.specs.Prelude.{Some, option_map, ◌^◌, ◌≡◌, ◌+◌, ◌≤◌, ◌<◌, ℕ, List, length, take, drop, slice_index, IfOk, IfErr, OnOk, Ok, Err, false, true, nat_lt};
ghost use Rattle.sm_world.specs.Disk.{KeepsToldSize, UsesDisk, has_failed};
ghost use Rattle.checkpoint_records.specs.Books.{default_name};
ghost use Rattle.checkpoint_records.specs.Rules.{KeepsRules};
ghost use Rattle.checkpoint_slots.specs.Layout.{start_of, gate_at, is_gate_open as opens, is_open, slot_of, store_size};
ghost use Rattle.checkpoint_slots.specs.Recovery.{LeadsTo, SlotStands, chosen, generation_of, length_of, may_be_length};
ghost use Rattle.checkpoint_slots.specs.Turns.{HasBook, HasCurrent, SteadyFile};
ghost use Rattle.checkpoint_slots.specs.Causes.{AreOpen, Finds, IsBookFault, Never, IsRecoveryFault, IsSettled, Looks, Tells, is_disk_fault};
ghost use Rattle.checkpoint_slots.specs.declared.layout.Slot.TheVariants.{First as FirstSlot, Second as SecondSlot};

use crate::layout::OPEN;
use crate::{Current, STORE_BYTES, Slot, Steady, StoreFault};
use byteorder::{ByteOrder, LittleEndian};
use checkpoint_changes::read_slot;
use checkpoint_records::{Book, BookRefusal};
use sm_world::{Disk, Failure};
use std::alloc::Global;

/// How many bytes a slot has behind its head.
const BEHIND_HEAD: u32 = 8_388_592;

/// How many bytes a book has at most: those, without the gate behind the book.
const BOOK_BYTES: u32 = 8_388_584;

/// Fills the buffer with the bytes at this place.
fn read<D: Disk>(disk: &mut D, at: u64, into: &mut [u8]) -> Result<(), Failure>
    requires { at + length into.old ≤ (D.outside disk.old).size }
    ensures bytes { Tells (D.outside disk.old) (λ file done.
        into.new ≡ take (length into.old) (drop at file)) result }
    ensures world { Looks (D.outside disk.old) (D.outside disk.new) (has_failed result) }
{
    disk.read_at(at, into)
}

/// Whether the byte at this place is that of an open gate.
fn is_open_at<D: Disk>(disk: &mut D, at: u64) -> Result<bool, Failure>
    requires { at + 1 ≤ (D.outside disk.old).size }
    ensures open { Tells (D.outside disk.old) (λ file opened.
        opened ≡ opens (slice_index file at)) result }
    ensures world { Looks (D.outside disk.old) (D.outside disk.new) (has_failed result) }
{
    let mut byte = [0; 1];
    match read(disk, at, &mut byte) {
        Ok(()) => Ok(byte[0] == OPEN),
        Err(failure) => Err(failure),
    }
}

/// The generation of a slot.
fn generation<D: Disk>(disk: &mut D, slot: Slot) -> Result<u64, Failure>
    requires { (D.outside disk.old).size ≡ store_size }
    ensures number { Tells (D.outside disk.old) (λ file number.
        number ≡ generation_of (slot_of file slot)) result }
    ensures world { Looks (D.outside disk.old) (D.outside disk.new) (has_failed result) }
{
    let mut bytes = [0; 8];
    match read(disk, slot.start(), &mut bytes) {
        Ok(()) => Ok(LittleEndian::read_u64(&bytes)),
        Err(failure) => Err(failure),
    }
}

/// How many bytes the book of a slot has, as its head says.
fn book_length<D: Disk>(disk: &mut D, slot: Slot) -> Result<u32, Failure>
    requires { (D.outside disk.old).size ≡ store_size }
    ensures number { Tells (D.outside disk.old) (λ file number.
        number ≡ length_of (slot_of file slot)) result }
    ensures world { Looks (D.outside disk.old) (D.outside disk.new) (has_failed result) }
{
    let mut bytes = [0; 4];
    match read(disk, slot.start() + 8, &mut bytes) {
        Ok(()) => Ok(LittleEndian::read_u32(&bytes)),
        Err(failure) => Err(failure),
    }
}

/// This slot as the current one. Where its book ends isn't known before it is read.
fn current<D: Disk>(disk: &mut D, slot: Slot) -> Result<Current, Failure>
    requires { (D.outside disk.old).size ≡ store_size }
    ensures slot { IfOk result (λ current. current.slot ≡ slot) }
    ensures number { Tells (D.outside disk.old) (λ file current.
        current.generation ≡ generation_of (slot_of file slot)) result }
    ensures world { Looks (D.outside disk.old) (D.outside disk.new) (has_failed result) }
{
    match generation(disk, slot) {
        Ok(generation) => Ok(Current {
            slot,
            generation,
            end: None,
        }),
        Err(failure) => Err(failure),
    }
}

/// The slot with the greater generation, where both gates are open.
fn newer<D: Disk>(disk: &mut D) -> Result<Current, StoreFault>
    requires { (D.outside disk.old).size ≡ store_size }
    ensures found { Finds (D.outside disk.old) (λ file current.
        AreOpen file → HasCurrent (Some current) file) (λ file at.
        AreOpen file → chosen file ≡ Err at) result }
    ensures world { Looks (D.outside disk.old) (D.outside disk.new) (is_disk_fault result) }
{
    let first = current(disk, Slot::First)?;
    let second = current(disk, Slot::Second)?;
    if first.generation < second.generation {
        return Ok(second);
    }
    if second.generation < first.generation {
        return Ok(first);
    }
    Err(StoreFault::Damaged { at: 64 })
}

/// The slot that is current, by the gates; None where no gate is open.
fn choose<D: Disk>(disk: &mut D) -> Result<Option<Current>, StoreFault>
    requires { (D.outside disk.old).size ≡ store_size }
    ensures found { Finds (D.outside disk.old) (λ file current. HasCurrent current file) (λ file at.
        chosen file ≡ Err at) result }
    ensures world { Looks (D.outside disk.old) (D.outside disk.new) (is_disk_fault result) }
{
    let first = is_open_at(disk, Slot::First.gate())?;
    let second = is_open_at(disk, Slot::Second.gate())?;
    match (first, second) {
        (false, false) => Ok(None),
        (true, false) => Ok(Some(current(disk, Slot::First)?)),
        (false, true) => Ok(Some(current(disk, Slot::Second)?)),
        (true, true) => Ok(Some(newer(disk)?)),
    }
}

/// So many bytes from this place on.
fn read_bytes<D: Disk>(
    alloc: Global,
    disk: &mut D,
    at: u64,
    count: u32,
) -> Result<Vec<u8>, StoreFault>
    requires { at + count ≤ (D.outside disk.old).size }
    ensures size { IfOk result (λ bytes. length bytes.items ≡ count) }
    ensures found { Finds (D.outside disk.old) (λ file bytes.
        bytes.items ≡ take count (drop at file)) (λ file at. Never) result }
    ensures world { Looks (D.outside disk.old) (D.outside disk.new) (is_disk_fault result) }
{
    let Ok(mut bytes) = vec![in alloc; 0; count as usize] else {
        return Err(StoreFault::NoMemory);
    };
    read(disk, at, &mut bytes)?;
    Ok(bytes)
}

/// The place of the next gate, which stands so many bytes behind the end of a book.
fn end_behind(at: u64, more: Option<u32>) -> Option<u64>
    requires { at + 2 ^ 32 ≤ 2 ^ 64 }
    ensures { result ≡ option_map (λ k. at + k) more }
{
    match more {
        Some(more) => Some(at + u64::from(more)),
        None => None,
    }
}

/// The book that these bytes lead to, which lie at a place of the file, behind the head of a slot
/// with a book of so many bytes; and the place of the next gate.
fn whole_book(
    alloc: Global,
    at: u64,
    bytes: &[u8],
    count: u32,
) -> Result<(Book, Option<u64>), StoreFault>
    requires place { at + 2 ^ 34 ≤ 2 ^ 64 }
    requires size { length bytes.now ≤ 8388592 }
    requires book { count ≤ length bytes.now }
    ensures ok { IfOk result (λ found. LeadsTo at bytes.now count found.0 found.1) }
    ensures err { IfErr result (IsBookFault at bytes.now count) }
{
    match read_slot(alloc, bytes, count) {
        Ok((book, more)) => Ok((book, end_behind(at + u64::from(count), more))),
        Err(BookRefusal::Damaged { at: damage }) => Err(StoreFault::Damaged { at: at + damage }),
        Err(BookRefusal::NoMemory) => Err(StoreFault::NoMemory),
    }
}

/// The book of a slot, and the place of the next gate.
fn read_chosen<D: Disk>(
    alloc: Global,
    disk: &mut D,
    slot: Slot,
) -> Result<(Book, Option<u64>), StoreFault>
    requires { (D.outside disk.old).size ≡ store_size }
    ensures found { Finds (D.outside disk.old) (λ file found.
        HasBook slot found.1 found.0 (slot_of file slot)) (λ file at.
        SlotStands (start_of slot) (slot_of file slot) (Err at)) result }
    ensures rules { IfOk result (λ found. KeepsRules found.0) }
    ensures named { IfOk result (λ found. found.0.name ≡ default_name) }
    ensures world { Looks (D.outside disk.old) (D.outside disk.new) (is_disk_fault result) }
{
    let count = book_length(disk, slot)?;
    if count % 8 != 0 || count > BOOK_BYTES {
        return Err(StoreFault::Damaged {
            at: slot.start() + 8,
        });
    }
    let at = slot.start() + 16;
    let bytes = match read_bytes(alloc, disk, at, BEHIND_HEAD) {
        Ok(bytes) => bytes,
        Err(fault) => return Err(fault),
    };
    whole_book(alloc, at, &bytes, count)
}

impl Steady {
    /// The turn and the book that the store's file stands for. In this order: a file of another
    /// size than a store is WrongSize; then it is Damaged where its gates, the head of the chosen
    /// slot, the book or an amendment behind it say so. A file without an open gate has the empty
    /// book. In the book `default` is chosen. The rest of the chosen slot is read whole, 8,388,592
    /// bytes.
    pub fn recover_from<D: Disk>(alloc: Global, disk: &mut D) -> Result<(Steady, Book), StoreFault>
        ensures told { (D.outside disk.new).told ≡ (D.outside disk.old).told }
        ensures size { IfOk result (λ recovered. (D.outside disk.new).size ≡ store_size) }
        ensures kept { KeepsToldSize (D.outside disk.old) (D.outside disk.new) }
        ensures recovers { (file : List ℕ) → IsSettled (D.outside disk.old) file →
            IfOk result (λ recovered. SteadyFile recovered.0 recovered.1 file) }
        ensures rules { IfOk result (λ recovered. KeepsRules recovered.1) }
        ensures named { IfOk result (λ recovered. recovered.1.name ≡ default_name) }
        ensures cause { IfErr result
            (IsRecoveryFault (D.outside disk.old) (D.outside disk.new).size) }
        ensures uses { UsesDisk (D.outside disk.old) (D.outside disk.new) (is_disk_fault result) }
    {
        let size = disk.size()?;
        if size != STORE_BYTES {
            return Err(StoreFault::WrongSize { size });
        }
        match choose(disk)? {
            None => Ok((Steady { current: None }, Book::empty(alloc)?)),
            Some(current) => {
                let (book, end) = read_chosen(alloc, disk, current.slot)?;
                let current = Some(Current { end, ..current });
                Ok((Steady { current }, book))
            }
        }
    }
}
