ghost use Rattle.std.specs.Prelude.{◌≡◌, IfOk};
ghost use Rattle.store_report.specs.Findings.{OpensByRules, StandsFor};
ghost use Rattle.store_report.specs.Lines.{status_of};

use checkpoint_records::Book;
use checkpoint_slots::{Steady, StoreFault};
use owned_lists::{NoMemory, Octets};
use sm_world::{EventList, SteadyWorld};
use std::alloc::Global;

/// What the bytes of a store's file stand for.
#[derive(Drop)]
pub enum Finding {
    /// The store opens, and has this book.
    Opens(Book),
    /// The file says nothing from this offset on.
    Damaged(u64),
    /// The file has this size, which is no store's.
    WrongSize(u64),
}

impl Finding {
    /// The status of a program that tells it, which is that of a session over this store that isn't
    /// refused.
    pub fn status(&self) -> u8
        ensures { result ≡ status_of self.now }
    {
        match self {
            Finding::Opens(_) => 0,
            Finding::Damaged(_) => 2,
            Finding::WrongSize(_) => 3,
        }
    }
}

/// What these bytes of a file stand for, by the recovery with which a session begins.
pub fn look_into(alloc: Global, file: Octets) -> Result<Finding, NoMemory>
    ensures stands { IfOk result (StandsFor file) }
    ensures rules { IfOk result OpensByRules }
{
    let mut world = SteadyWorld::new(alloc, EventList::new(alloc), Octets::new(alloc), file)?;
    match Steady::recover_from(alloc, &mut world) {
        Ok((_, book)) => Ok(Finding::Opens(book)),
        Err(StoreFault::Damaged { at }) => Ok(Finding::Damaged(at)),
        Err(StoreFault::WrongSize { size }) => Ok(Finding::WrongSize(size)),
        // A disk in memory fails for want of memory alone.
        Err(StoreFault::DiskFault) => Err(NoMemory),
        Err(StoreFault::NoMemory) => Err(NoMemory),
        Err(StoreFault::Worn) => unreachable!(),
    }
}
