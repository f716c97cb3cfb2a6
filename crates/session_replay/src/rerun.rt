ghost use Rattle.std.specs.Prelude.{◌≡◌, ℕ, List, IfOk, OnOk};
ghost use Rattle.std.specs.List.{AllByRecursion};
ghost use Rattle.sm_world.specs.Events.{HasPieceSize};
ghost use Rattle.sm_world.specs.Worlds.{steady_outside};
ghost use Rattle.checkpoint_records.specs.Books.{choose, default_name};
ghost use Rattle.checkpoint_records.specs.Rules.{IsName, KeepsRules};
ghost use Rattle.session_in_memory.specs.Stores.{IsFresh};
ghost use Rattle.checkpoint_records.specs.declared.records.Book.{Book as AnyBook};
ghost use Rattle.checkpoint_slots.specs.Causes.{IsSettled};
ghost use Rattle.checkpoint_slots.specs.Turns.{SteadyFile};
ghost use Rattle.session_replay.specs.Running.{HasRun, HoldsBook, IsAlike};

use checkpoint_journal::Journal;
use checkpoint_records::Book;
use owned_lists::{NoMemory, Octets};
use session_engine::{Config, ServeFault, serve};
use session_in_memory::blank_store;
use sm_world::{EventList, SteadyWorld};
use std::alloc::Global;

/// The journal of a world in memory. This world fails for want of memory alone.
fn journal_of(alloc: Global, world: &mut SteadyWorld) -> Result<Journal, NoMemory>
    requires fresh { (file : List ℕ) × IsFresh (steady_outside world.old) file }
    ensures same { IsAlike (steady_outside world.old) (steady_outside world.new) }
    ensures stands { IfOk result (λ journal. (found : AnyBook)
        × ((file : List ℕ) → IsSettled (steady_outside world.old) file →
        SteadyFile journal found file)) }
{
    match Journal::recover_from(alloc, world) {
        Ok(recovered) => {
            let (journal, book) = recovered;
            drop(book);
            Ok(journal)
        }
        Err(_fault) => Err(NoMemory),
    }
}

/// Writes a book into the store of a world that was just made with a blank one.
fn write_book(alloc: Global, world: &mut SteadyWorld, book: &Book) -> Result<(), NoMemory>
    requires fresh { (file : List ℕ) × IsFresh (steady_outside world.old) file }
    requires rules { KeepsRules book.now }
    requires chosen { book.now.name ≡ default_name }
    ensures holds { OnOk result (HoldsBook book.now (steady_outside world.new)) }
    ensures coming { (steady_outside world.new).coming ≡ (steady_outside world.old).coming }
{
    let journal = journal_of(alloc, world)?;
    match journal.compact(alloc, world, book) {
        Ok(journal) => {
            drop(journal);
            Ok(())
        }
        Err(refused) => {
            drop(refused);
            Err(NoMemory)
        }
    }
}

/// A world in memory in which the machine has run over these events, in the session of the wishes,
/// over a store with this book.
pub fn rerun(
    alloc: Global,
    config: Config,
    book: &Book,
    events: EventList,
) -> Result<SteadyWorld, NoMemory>
    requires rules { KeepsRules book.now }
    requires chosen { book.now.name ≡ default_name }
    requires named { IsName config.session }
    requires sized { AllByRecursion HasPieceSize events }
    ensures { IfOk result (λ world.
        HasRun config (choose config.session book.now) events (steady_outside world)) }
{
    let turns = events.as_slice().len() as u64;
    let store = blank_store(alloc)?;
    let mut world = SteadyWorld::new(alloc, events, Octets::new(alloc), store)?;
    write_book(alloc, &mut world, book)?;
    match serve(alloc, &mut world, config, turns) {
        Ok(()) => Ok(world),
        Err(ServeFault::Spent) => Ok(world),
        // The store has this book, whose epoch can be raised, so only memory can be wanting.
        Err(_) => Err(NoMemory),
    }
}
