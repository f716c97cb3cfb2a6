ghost use Rattle.std.specs.Prelude.{◌≡◌, ◌↔◌, IsTrue, ◌+◌, ◌++◌, replicate, ◌≤◌, ◌<◌, ◌^◌, ◌∷◌, [], length, is_err, IfOk, IfErr, OnOk, Err, Some};
ghost use Rattle.checkpoint_slots.specs.Layout.{store_size};
ghost use Rattle.byteorder.specs.Endian.{little_bytes};
ghost use Rattle.sm_world.specs.Disk.{UsesDisk};
ghost use Rattle.sm_world.specs.Outside.{Added};
ghost use Rattle.checkpoint_records.specs.Books.{default_name};
ghost use Rattle.checkpoint_records.specs.Rules.{KeepsRules};
ghost use Rattle.checkpoint_slots.specs.Recovery.{slot_bytes};
ghost use Rattle.checkpoint_slots.specs.Turns.{Closes, Fills, HasRoomFor, Lifts, Puts, advanced, end_in, following, next_generation, target as next_slot};
ghost use Rattle.checkpoint_slots.specs.Causes.{IsSpellFault};
ghost use Rattle.checkpoint_slots.specs.declared.fault.StoreFault.TheVariants.{DiskFault as FaultOfDisk, Worn as IsWorn};

use crate::layout::{OPEN, SLOT_BYTES};
use crate::{Slot, StoreFault};
use byteorder::{ByteOrder, LittleEndian};
use checkpoint_records::{Book, spell_book};
use owned_lists::{NoMemory, Octets};
use sm_world::{Disk, Failed};
use std::alloc::Global;
use std::marker::Model;

/// The slot whose book is in use, its generation, and where its book ends.
#[derive(Clone, Copy, Debug, PartialEq, Eq)]
pub struct Current {
    pub slot: Slot,
    pub generation: u64,
    /// The offset of the next gate, where amendments may stand behind the book.
    pub end: Option<u64>,
}

/// A turn of the store between two commits. There is no current slot before the first one.
#[derive(Drop)]
pub struct Steady {
    pub(crate) current: Option<Current>,
}

/// A turn in which the gate of the other slot is closed.
pub struct Closed {
    current: Option<Current>,
}

/// A turn in which the other slot is filled behind its closed gate.
pub struct Filled {
    current: Option<Current>,
    /// What is current once the gate is opened.
    next: Current,
}

impl Model for Steady {
    ghost use Rattle.std.specs.Prelude.{Option};
    ghost use Rattle.checkpoint_slots.specs.declared.turn.Current.{Current};

    ghost Value = { Option Current };

    ghost view = { λ steady. steady.current };
}

impl Model for Closed {
    ghost use Rattle.std.specs.Prelude.{Option};
    ghost use Rattle.checkpoint_slots.specs.declared.turn.Current.{Current};

    ghost Value = { Option Current };

    ghost view = { λ closed. closed.current };
}

impl Model for Filled {
    ghost use Rattle.std.specs.Prelude.{Option};
    ghost use Rattle.checkpoint_slots.specs.declared.turn.Current.{Current};

    ghost Value = { Option Current × Current };

    ghost view = { λ filled. (filled.current, filled.next) };
}

/// The slot of the next book: the one that isn't current, and the first where none is.
fn target(current: Option<Current>) -> Slot
    ensures { result ≡ next_slot current }
{
    match current {
        Some(current) => current.slot.other(),
        None => Slot::First,
    }
}

/// What is current once the next slot is opened, which was filled with so many bytes.
fn next_current(current: Option<Current>, filled: u64) -> Current
    requires { filled ≤ 8388608 }
    ensures { next_generation current < 2 ^ 64 → result ≡ following current filled }
{
    let generation = match current {
        Some(current) => current.generation.saturating_add(1),
        None => 1,
    };
    let slot = target(current);
    Current {
        slot,
        generation,
        end: Some(slot.start() + filled.saturating_sub(8)),
    }
}

/// Writes these bytes and waits until they are on the disk, by one write and one sync.
pub fn put<D: Disk>(disk: &mut D, at: u64, bytes: &[u8]) -> Result<(), Failed>
    requires { at + length bytes.now ≤ (D.outside disk.old).size }
    ensures effects { Added (D.outside disk.old).told (D.outside disk.new).told
        (Puts at bytes.now result) }
    ensures size { (D.outside disk.new).size ≡ (D.outside disk.old).size }
    ensures uses { UsesDisk (D.outside disk.old) (D.outside disk.new) (is_err result) }
{
    match disk.write_at(at, bytes) {
        Err(failed) => Err(failed),
        Ok(()) => disk.sync(),
    }
}

/// The head of a slot: the generation, how many bytes its book has, and four zeros.
fn head(generation: u64, count: u32) -> [u8; 16]
    ensures { result ≡ little_bytes 8 generation ++ (little_bytes 4 count ++ replicate 4 0) }
{
    let mut head = [0; 16];
    LittleEndian::write_u64(&mut head[..8], generation);
    LittleEndian::write_u32(&mut head[8..12], count);
    head
}

/// What a commit writes into a slot.
fn body_of(alloc: Global, generation: u64, book: &Book) -> Result<Octets, NoMemory>
    requires rules { KeepsRules book.now }
    requires chosen { book.now.name ≡ default_name }
    ensures { IfOk result (λ body. body ≡ slot_bytes generation book.now) }
{
    let bytes = spell_book(alloc, book)?;
    let mut body = Octets::from_slice(alloc, &head(generation, bytes.len() as u32))?;
    body.append(bytes.as_slice())?;
    body.append(&[0; 8])?;
    Ok(body)
}

impl Steady {
    /// The offset of the next gate, behind the current book and its amendments; None where no slot
    /// is current, or nothing may be appended to its book.
    pub fn end(&self) -> Option<u64>
        ensures { result ≡ end_in self.now }
    {
        match self.current {
            Some(current) => current.end,
            None => None,
        }
    }

    /// Whether no generation is left: the current one is 18,446,744,073,709,551,615.
    pub fn worn(&self) -> bool
        ensures is { IsTrue result ↔ next_generation self.now ≡ 2 ^ 64 }
        ensures bound { next_generation self.now ≤ 2 ^ 64 }
    {
        match self.current {
            Some(current) => current.generation == u64::MAX,
            None => false,
        }
    }

    /// Whether a delta of m bytes fits behind the current book, with the next gate.
    pub fn has_room(&self, m: u64) -> bool
        ensures { IsTrue result ↔ HasRoomFor self.now m }
    {
        let Some(current) = self.current else {
            return false;
        };
        let Some(end) = current.end else {
            return false;
        };
        let limit = current.slot.start() + SLOT_BYTES;
        m < limit.saturating_sub(end).saturating_sub(8)
    }

    /// The turn once a delta of m bytes stands behind the current book: its next gate is so many
    /// bytes and eight further on. Neither the generation nor the slot changes.
    pub fn advance(self, m: u32) -> Steady
        requires { HasRoomFor self m }
        ensures { result ≡ advanced self m }
    {
        let Some(current) = self.current else {
            return self;
        };
        let Some(end) = current.end else {
            return self;
        };
        Steady {
            current: Some(Current {
                end: Some(end + 8 + u64::from(m)),
                ..current
            }),
        }
    }

    /// The bytes that `fill` writes for this book, in which `default` is chosen, and the turn, which
    /// no device has touched. A store whose generations are used up is Worn, which is tested first.
    pub fn spell(self, alloc: Global, book: &Book) -> Result<(Steady, Octets), (Steady, StoreFault)>
        requires rules { KeepsRules book.now }
        requires chosen { book.now.name ≡ default_name }
        ensures body { IfOk result (λ spelled. (spelled.0 ≡ self)
            × (spelled.1 ≡ slot_bytes (next_generation self) book.now)) }
        ensures room { IfOk result (λ spelled. length spelled.1 ≤ 8388608) }
        ensures fits { IfOk result (λ spelled. next_generation self < 2 ^ 64) }
        ensures cause { IfErr result (λ refused. (refused.0 ≡ self)
            × IsSpellFault (next_generation self) refused.1) }
        ensures worn { next_generation self ≡ 2 ^ 64 → result ≡ Err (self, IsWorn) }
    {
        let generation = match self.current {
            Some(current) => current.generation.checked_add(1),
            None => Some(1),
        };
        let Some(generation) = generation else {
            return Err((self, StoreFault::Worn));
        };
        match body_of(alloc, generation, book) {
            Ok(body) => Ok((self, body)),
            Err(NoMemory) => Err((self, StoreFault::NoMemory)),
        }
    }

    /// Closes the gate of the other slot, by one write and one sync. After a fault the store must
    /// be recovered anew.
    pub fn close<D: Disk>(self, disk: &mut D) -> Result<Closed, StoreFault>
        requires { (D.outside disk.old).size ≡ store_size }
        ensures effects { Added (D.outside disk.old).told (D.outside disk.new).told
            (Closes self result) }
        ensures same { IfOk result (λ closed. closed ≡ self) }
        ensures size { (D.outside disk.new).size ≡ (D.outside disk.old).size }
        ensures uses { UsesDisk (D.outside disk.old) (D.outside disk.new) (is_err result) }
        ensures cause { IfErr result (λ fault. fault ≡ FaultOfDisk) }
    {
        let Steady { current } = self;
        match put(disk, target(current).gate(), &[0]) {
            Ok(()) => Ok(Closed { current }),
            Err(Failed) => Err(StoreFault::DiskFault),
        }
    }
}

impl Closed {
    /// Fills the other slot with what `spell` gave for this turn, by one write and one sync. After a
    /// fault the store must be recovered anew.
    pub fn fill<D: Disk>(self, disk: &mut D, body: &Octets) -> Result<Filled, StoreFault>
        requires size { (D.outside disk.old).size ≡ store_size }
        requires room { length body.now ≤ 8388608 }
        ensures effects { Added (D.outside disk.old).told (D.outside disk.new).told
            (Fills self body.now result) }
        ensures same { IfOk result (λ filled. filled.0 ≡ self) }
        ensures next { next_generation self < 2 ^ 64 →
            IfOk result (λ filled. filled.1 ≡ following self (length body.now)) }
        ensures size { (D.outside disk.new).size ≡ (D.outside disk.old).size }
        ensures uses { UsesDisk (D.outside disk.old) (D.outside disk.new) (is_err result) }
        ensures cause { IfErr result (λ fault. fault ≡ FaultOfDisk) }
    {
        let Closed { current } = self;
        match put(disk, target(current).start(), body.as_slice()) {
            Ok(()) => Ok(Filled {
                current,
                next: next_current(current, body.len() as u64),
            }),
            Err(Failed) => Err(StoreFault::DiskFault),
        }
    }
}

impl Filled {
    /// Opens the gate of the slot that was filled, by one write and one sync. From then on that slot
    /// is the current one. After a fault the store must be recovered anew.
    pub fn lift<D: Disk>(self, disk: &mut D) -> Result<Steady, StoreFault>
        requires { (D.outside disk.old).size ≡ store_size }
        ensures effects { Added (D.outside disk.old).told (D.outside disk.new).told
            (Lifts self result) }
        ensures next { IfOk result (λ steady. steady ≡ Some self.1) }
        ensures size { (D.outside disk.new).size ≡ (D.outside disk.old).size }
        ensures uses { UsesDisk (D.outside disk.old) (D.outside disk.new) (is_err result) }
        ensures cause { IfErr result (λ fault. fault ≡ FaultOfDisk) }
    {
        let Filled { current, next } = self;
        match put(disk, target(current).gate(), &[OPEN]) {
            Ok(()) => Ok(Steady {
                current: Some(next),
            }),
            Err(Failed) => Err(StoreFault::DiskFault),
        }
    }
}
