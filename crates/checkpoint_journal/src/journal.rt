ghost use Rattle.std.specs.Prelude.{◌≡◌, ◌↔◌, ◌+◌, ◌++◌, ◌∷◌, [], ◌≤◌, ◌<◌, ◌^◌, IsTrue, ℕ, List, is_err, length, replicate, IfErr, IfOk, Err, Some};
ghost use Rattle.checkpoint_slots.specs.Layout.{store_size};
ghost use Rattle.byteorder.specs.Endian.{little_bytes};
ghost use Rattle.sm_world.specs.Disk.{KeepsToldSize, UsesDisk};
ghost use Rattle.sm_world.specs.Outside.{Added};
ghost use Rattle.checkpoint_records.specs.Books.{default_name};
ghost use Rattle.checkpoint_records.specs.Rules.{KeepsRules};
ghost use Rattle.checkpoint_slots.specs.Causes.{IsRecoveryFault, IsSettled, is_disk_fault};
ghost use Rattle.checkpoint_slots.specs.Turns.{HasRoomFor, SteadyFile, next_generation};
ghost use Rattle.checkpoint_slots.specs.declared.fault.StoreFault.TheVariants.{DiskFault as FaultOfDisk, Worn as IsWorn};
ghost use Rattle.checkpoint_journal.specs.Journal.{Appends, Compacts, Compacted, HadNumber, behind, is_lost, size_of};
ghost use Rattle.checkpoint_journal.specs.Writing.{PutsAll};

use byteorder::{ByteOrder, LittleEndian};
use checkpoint_changes::{Delta, delta_length, spell_delta};
use checkpoint_records::Book;
use checkpoint_slots::{OPEN, Steady, StoreFault, put};
use owned_lists::{NoMemory, Octets};
use sm_world::{Disk, Failed};
use std::alloc::Global;
use std::marker::Model;

/// The store between two commits. Each commit is an append or a compaction.
#[derive(Drop)]
pub struct Journal {
    steady: Steady,
}

impl Model for Journal {
    ghost use Rattle.std.specs.Prelude.{Option};
    ghost use Rattle.checkpoint_slots.specs.declared.turn.Current.{Current};

    ghost Value = { Option Current };

    ghost view = { λ journal. journal.steady };
}

/// What stands between a gate and a delta: three zeros, and how many bytes the delta has.
fn head(count: u32) -> [u8; 7]
    ensures { result ≡ replicate 3 0 ++ little_bytes 4 count }
{
    let mut head = [0; 7];
    LittleEndian::write_u32(&mut head[3..7], count);
    head
}

/// All of an amendment but its gate, and the next gate, which is closed.
fn behind_gate(alloc: Global, delta: &Delta) -> Result<Octets, NoMemory>
    requires { size_of delta.now < 2 ^ 32 }
    ensures { IfOk result (λ tail. tail ≡ behind delta.now) }
{
    let bytes = spell_delta(alloc, delta)?;
    let mut tail = Octets::from_slice(alloc, &head(bytes.len() as u32))?;
    tail.append(bytes.as_slice())?;
    tail.append(&[0])?;
    Ok(tail)
}

/// Puts these bytes behind the gate at this place, and then opens the gate.
fn put_behind<D: Disk>(disk: &mut D, gate: u64, tail: &[u8]) -> Result<(), Failed>
    requires size { (D.outside disk.old).size ≡ store_size }
    requires room { gate + 1 + length tail.now ≤ store_size }
    ensures effects { Added (D.outside disk.old).told (D.outside disk.new).told
        (PutsAll ((gate + 1, tail.now) ∷ (gate, 165 ∷ []) ∷ []) result) }
    ensures size { (D.outside disk.new).size ≡ (D.outside disk.old).size }
    ensures uses { UsesDisk (D.outside disk.old) (D.outside disk.new) (is_err result) }
{
    match put(disk, gate + 1, tail) {
        Ok(()) => put(disk, gate, &[OPEN]),
        Err(failed) => Err(failed),
    }
}

/// Writes this book into the other slot, whole.
fn put_book<D: Disk>(steady: Steady, disk: &mut D, body: &Octets) -> Result<Steady, StoreFault>
    requires size { (D.outside disk.old).size ≡ store_size }
    requires room { length body.now ≤ 8388608 }
    ensures effects { Added (D.outside disk.old).told (D.outside disk.new).told
        (Compacted steady body.now result) }
    ensures size { (D.outside disk.new).size ≡ (D.outside disk.old).size }
    ensures uses { UsesDisk (D.outside disk.old) (D.outside disk.new) (is_err result) }
    ensures cause { IfErr result (λ fault. fault ≡ FaultOfDisk) }
{
    let closed = match steady.close(disk) {
        Ok(closed) => closed,
        Err(fault) => return Err(fault),
    };
    let filled = match closed.fill(disk, body) {
        Ok(filled) => filled,
        Err(fault) => return Err(fault),
    };
    filled.lift(disk)
}

impl Journal {
    /// The journal and the book that the store's file stands for, with the faults of
    /// `Steady::recover_from`.
    pub fn recover_from<D: Disk>(alloc: Global, disk: &mut D) -> Result<(Journal, Book), StoreFault>
        ensures told { (D.outside disk.new).told ≡ (D.outside disk.old).told }
        ensures size { IfOk result (λ recovered. (D.outside disk.new).size ≡ store_size) }
        ensures kept { KeepsToldSize (D.outside disk.old) (D.outside disk.new) }
        ensures recovers { (file : List ℕ) → IsSettled (D.outside disk.old) file →
            IfOk result (λ recovered. SteadyFile recovered.0 recovered.1 file) }
        ensures rules { IfOk result (λ recovered. KeepsRules recovered.1) }
        ensures named { IfOk result (λ recovered. recovered.1.name ≡ default_name) }
        ensures cause { IfErr result
            (IsRecoveryFault (D.outside disk.old) (D.outside disk.new).size) }
        ensures uses { UsesDisk (D.outside disk.old) (D.outside disk.new) (is_disk_fault result) }
    {
        match Steady::recover_from(alloc, disk) {
            Ok((steady, book)) => Ok((Journal { steady }, book)),
            Err(fault) => Err(fault),
        }
    }

    /// Whether the delta fits behind the current book, with the next gate. It doesn't where no slot
    /// is current, or nothing may be appended to its book.
    pub fn fits(&self, delta: &Delta) -> bool
        ensures { IsTrue result ↔ HasRoomFor self.now (size_of delta.now) }
    {
        self.steady.has_room(delta_length(delta))
    }

    /// Appends a delta behind the current book, by two writes and two syncs of its own bytes and
    /// nine more. The generation stays; all the same a store whose generations are used up is Worn,
    /// which is tested first. With Worn and NoMemory the journal comes back, which no device has
    /// touched. After another fault the store must be recovered anew.
    pub fn append<D: Disk>(
        self,
        alloc: Global,
        disk: &mut D,
        delta: &Delta,
    ) -> Result<Journal, (Option<Journal>, StoreFault)>
        requires size { (D.outside disk.old).size ≡ store_size }
        requires fits { HasRoomFor self (size_of delta.now) }
        ensures effects { Added (D.outside disk.old).told (D.outside disk.new).told
            (Appends self delta.now result) }
        ensures worn { next_generation self ≡ 2 ^ 64 → result ≡ Err (Some self, IsWorn) }
        ensures numbered { HadNumber self result }
        ensures size { (D.outside disk.new).size ≡ (D.outside disk.old).size }
        ensures uses { UsesDisk (D.outside disk.old) (D.outside disk.new) (is_lost result) }
    {
        if self.steady.worn() {
            return Err((Some(self), StoreFault::Worn));
        }
        let tail = match behind_gate(alloc, delta) {
            Ok(tail) => tail,
            Err(NoMemory) => return Err((Some(self), StoreFault::NoMemory)),
        };
        let Some(gate) = self.steady.end() else {
            unreachable!();
        };
        match put_behind(disk, gate, tail.as_slice()) {
            Ok(()) => Ok(Journal {
                steady: self.steady.advance(tail.len() as u32 - 8),
            }),
            Err(Failed) => Err((None, StoreFault::DiskFault)),
        }
    }

    /// Writes the whole book, in which `default` is chosen, into the other slot, which is the
    /// current one afterwards. A store whose generations are used up is Worn, which is tested first.
    /// With Worn and NoMemory the journal comes back, which no device has touched. After another
    /// fault the store must be recovered anew.
    pub fn compact<D: Disk>(
        self,
        alloc: Global,
        disk: &mut D,
        book: &Book,
    ) -> Result<Journal, (Option<Journal>, StoreFault)>
        requires size { (D.outside disk.old).size ≡ store_size }
        requires rules { KeepsRules book.now }
        requires chosen { book.now.name ≡ default_name }
        ensures effects { Added (D.outside disk.old).told (D.outside disk.new).told
            (Compacts self book.now result) }
        ensures worn { next_generation self ≡ 2 ^ 64 → result ≡ Err (Some self, IsWorn) }
        ensures numbered { HadNumber self result }
        ensures size { (D.outside disk.new).size ≡ (D.outside disk.old).size }
        ensures uses { UsesDisk (D.outside disk.old) (D.outside disk.new) (is_lost result) }
    {
        // The proof needs that the epoch has 32 bits.
        let _epoch = book.epoch;
        let (steady, body) = match self.steady.spell(alloc, book) {
            Ok(spelled) => spelled,
            Err((steady, fault)) => return Err((Some(Journal { steady }), fault)),
        };
        match put_book(steady, disk, &body) {
            Ok(steady) => Ok(Journal { steady }),
            Err(fault) => Err((None, fault)),
        }
    }
}
