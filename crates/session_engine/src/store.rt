ghost use Rattle.std.specs.Prelude.{◌≡◌, ℕ, List, IfOk, IfErr};
ghost use Rattle.checkpoint_slots.specs.Layout.{store_size};
ghost use Rattle.sm_world.specs.Disk.{KeepsToldSize, UsesDisk};
ghost use Rattle.sm_world.specs.Outside.{Added};
ghost use Rattle.checkpoint_records.specs.Books.{default_name as the_default};
ghost use Rattle.checkpoint_records.specs.Rules.{IsName, KeepsRules};
ghost use Rattle.checkpoint_records.specs.declared.records.Book.{Book as AnyBook};
ghost use Rattle.checkpoint_slots.specs.Causes.{IsRecoveryFault, IsSettled, is_disk_fault};
ghost use Rattle.checkpoint_slots.specs.Turns.{SteadyFile};
ghost use Rattle.session_engine.specs.Causes.{IsOfCommit};
ghost use Rattle.session_engine.specs.Standing.{as_stored as stands_as};
ghost use Rattle.session_engine.specs.Store.{Makes, Writes, journal_of};

use checkpoint_changes::{Delta, delta_of};
use checkpoint_journal::Journal;
use checkpoint_records::{Book, choose, copy_book, default_name};
use checkpoint_slots::StoreFault;
use owned_lists::NoMemory;
use sm_world::Disk;
use std::alloc::Global;
use std::marker::Model;

/// The store between two commits: its journal, and a copy of the session's book that stands in it.
#[derive(Drop)]
pub struct Store {
    journal: Journal,
    book: Book,
}

impl Model for Store {
    ghost use Rattle.checkpoint_records.specs.Rules.{KeepsRules};
    ghost use Rattle.session_engine.specs.Store.{Stored};

    ghost Value = { Stored };

    ghost view = { λ store. record { journal = store.journal; book = store.book } };

    // So the changes that make another book of it can be told.
    ghost invariant = { λ store. KeepsRules store.book };
}

/// The book as it stands in the store.
fn as_stored(alloc: Global, book: Book) -> Result<Book, NoMemory>
    requires { KeepsRules book }
    ensures is { IfOk result (λ stored. stored ≡ stands_as book) }
    ensures rules { IfOk result KeepsRules }
    ensures chosen { IfOk result (λ stored. stored.name ≡ the_default) }
{
    let name = default_name(alloc)?;
    let stored = choose(alloc, book, name.as_slice())?;
    Ok(stored)
}

/// What makes the one book of the other as they stand in the store, and that other one.
fn difference(alloc: Global, saved: Book, book: Book) -> Result<(Delta, Book), NoMemory>
    requires saved { KeepsRules saved }
    requires rules { KeepsRules book }
    ensures makes { IfOk result (λ both. Makes (stands_as saved) both.0 (stands_as book)) }
    ensures is { IfOk result (λ both. both.1 ≡ stands_as book) }
    ensures rules { IfOk result (λ both. KeepsRules both.1) }
    ensures chosen { IfOk result (λ both. both.1.name ≡ the_default) }
{
    let old = as_stored(alloc, saved)?;
    let new = as_stored(alloc, book)?;
    let delta = delta_of(alloc, &old, &new)?;
    Ok((delta, new))
}

/// Appends the delta where it fits, and writes the whole book where it doesn't.
fn write<D: Disk>(
    journal: Journal,
    alloc: Global,
    disk: &mut D,
    delta: &Delta,
    book: &Book,
) -> Result<Journal, StoreFault>
    requires size { (D.outside disk.old).size ≡ store_size }
    requires rules { KeepsRules book.now }
    requires chosen { book.now.name ≡ the_default }
    ensures effects { (old : AnyBook) → Makes old delta.now book.now →
        Added (D.outside disk.old).told (D.outside disk.new).told
        (Writes journal old book.now result) }
    ensures size { (D.outside disk.new).size ≡ (D.outside disk.old).size }
    ensures uses { UsesDisk (D.outside disk.old) (D.outside disk.new) (is_disk_fault result) }
    ensures cause { IfErr result IsOfCommit }
{
    // The proof needs that the epoch has 32 bits.
    let _epoch = book.epoch;
    if journal.fits(delta) {
        return match journal.append(alloc, disk, delta) {
            Ok(journal) => Ok(journal),
            Err((_, fault)) => Err(fault),
        };
    }
    match journal.compact(alloc, disk, book) {
        Ok(journal) => Ok(journal),
        Err((_, fault)) => Err(fault),
    }
}

impl Store {
    /// The store that the disk's file stands for, and the book of the session with this name.
    pub fn recover_from<D: Disk>(
        alloc: Global,
        disk: &mut D,
        session: &[u8],
    ) -> Result<(Store, Book), StoreFault>
        requires named { IsName session.now }
        ensures told { (D.outside disk.new).told ≡ (D.outside disk.old).told }
        ensures size { IfOk result (λ recovered. (D.outside disk.new).size ≡ store_size) }
        ensures kept { KeepsToldSize (D.outside disk.old) (D.outside disk.new) }
        ensures recovers { (file : List ℕ) → IsSettled (D.outside disk.old) file →
            IfOk result (λ recovered. SteadyFile recovered.0.journal (stands_as recovered.1) file) }
        ensures called { IfOk result (λ recovered. recovered.1.name ≡ session.now) }
        ensures same { IfOk result (λ recovered. recovered.0.book ≡ recovered.1) }
        ensures rules { IfOk result (λ recovered. KeepsRules recovered.1) }
        ensures cause { IfErr result
            (IsRecoveryFault (D.outside disk.old) (D.outside disk.new).size) }
        ensures uses { UsesDisk (D.outside disk.old) (D.outside disk.new) (is_disk_fault result) }
    {
        let (journal, stored) = match Journal::recover_from(alloc, disk) {
            Ok(recovered) => recovered,
            Err(fault) => return Err(fault),
        };
        let book = match choose(alloc, stored, session) {
            Ok(book) => book,
            Err(NoMemory) => return Err(StoreFault::NoMemory),
        };
        match copy_book(&book) {
            Ok(kept) => Ok((
                Store {
                    journal,
                    book: kept,
                },
                book,
            )),
            Err(NoMemory) => Err(StoreFault::NoMemory),
        }
    }

    /// Writes a checkpoint, and keeps the book. Its changes are made before the disk is touched.
    /// After a fault the store must be recovered anew.
    pub fn commit<D: Disk>(
        self,
        alloc: Global,
        disk: &mut D,
        book: Book,
    ) -> Result<Store, StoreFault>
        requires size { (D.outside disk.old).size ≡ store_size }
        requires rules { KeepsRules book }
        ensures effects { Added (D.outside disk.old).told (D.outside disk.new).told
            (Writes self.journal (stands_as self.book) (stands_as book)
            (journal_of result)) }
        ensures book { IfOk result (λ store. store.book ≡ book) }
        ensures rules { KeepsRules self.book }
        ensures size { (D.outside disk.new).size ≡ (D.outside disk.old).size }
        ensures uses { UsesDisk (D.outside disk.old) (D.outside disk.new) (is_disk_fault result) }
        ensures cause { IfErr result IsOfCommit }
    {
        let Store {
            journal,
            book: saved,
        } = self;
        let copy = match copy_book(&book) {
            Ok(copy) => copy,
            Err(NoMemory) => return Err(StoreFault::NoMemory),
        };
        let (delta, stored) = match difference(alloc, saved, copy) {
            Ok(both) => both,
            Err(NoMemory) => return Err(StoreFault::NoMemory),
        };
        match write(journal, alloc, disk, &delta, &stored) {
            Ok(journal) => Ok(Store { journal, book }),
            Err(fault) => Err(fault),
        }
    }
}
