ghost use Rattle.std.specs.Prelude.{◌≡◌};
ghost use Rattle.program_frame.specs.Printing.{line};
ghost use Rattle.store_return.specs.Faults.{console_fault, disk_fault, fault_line, fault_status, obstacle_status, obstacle_words, return_fault, store_fault};

use checkpoint_slots::StoreFault;
use program_frame::{ProgramFault, try_line, try_numbered};
use session_return::{Obstacle, Refusal};
use sm_world::{Console, Failure};
use std::alloc::Global;

/// Why nothing was put back. Each has its status and, but for the console's fault, its line.
#[derive(Clone, Copy, Debug, PartialEq, Eq)]
pub enum Fault {
    BadWords,
    /// What was kept is damaged at this byte.
    KeptDamaged(u64),
    /// What was kept has this size, which is neither a store's nor a book's.
    KeptSize(u64),
    /// The store is damaged at this byte.
    Damaged(u64),
    /// The store has this size, which is no store's.
    WrongSize(u64),
    /// This stands in the way.
    Stopped(Obstacle),
    Disk,
    Console,
    /// The store has no number for one checkpoint more.
    Worn,
    NoMemory,
}

fn obstacle_status(obstacle: Obstacle) -> u8
    ensures { result ≡ obstacle_status obstacle }
{
    match obstacle {
        Obstacle::NoSession => 16,
        Obstacle::Clash => 16,
        Obstacle::TooManyEntries => 16,
        Obstacle::TooManySessions => 12,
        Obstacle::Worn => 8,
    }
}

fn obstacle_line(obstacle: Obstacle) -> &'static [u8]
    ensures { result.now ≡ line (obstacle_words obstacle) }
{
    match obstacle {
        Obstacle::NoSession => b"smd: no such session\n",
        Obstacle::Clash => b"smd: an ID is another session's\n",
        Obstacle::TooManyEntries => b"smd: too many entries\n",
        Obstacle::TooManySessions => b"smd: too many sessions\n",
        Obstacle::Worn => b"smd: store worn\n",
    }
}

impl Fault {
    /// Why a call on the disk did nothing.
    pub(crate) fn of_disk(failure: Failure) -> Fault
        ensures { result ≡ disk_fault failure }
    {
        match failure {
            Failure::Failed => Fault::Disk,
            Failure::NoMemory => Fault::NoMemory,
        }
    }

    /// Why a call on the console did nothing.
    pub fn of_console(failure: Failure) -> Fault
        ensures { result ≡ console_fault failure }
    {
        match failure {
            Failure::Failed => Fault::Console,
            Failure::NoMemory => Fault::NoMemory,
        }
    }

    /// Why the store wasn't opened, or isn't written.
    pub fn of_store(fault: StoreFault) -> Fault
        ensures { result ≡ store_fault fault }
    {
        match fault {
            StoreFault::WrongSize { size } => Fault::WrongSize(size),
            StoreFault::Damaged { at } => Fault::Damaged(at),
            StoreFault::DiskFault => Fault::Disk,
            StoreFault::Worn => Fault::Worn,
            StoreFault::NoMemory => Fault::NoMemory,
        }
    }

    /// Why no book is given.
    pub(crate) fn of_return(refusal: Refusal) -> Fault
        ensures { result ≡ return_fault refusal }
    {
        match refusal {
            Refusal::Stopped(obstacle) => Fault::Stopped(obstacle),
            Refusal::NoMemory => Fault::NoMemory,
        }
    }
}

impl ProgramFault for Fault {
    ghost status_of = { fault_status };

    ghost line_of = { fault_line };

    fn status(self) -> u8 {
        match self {
            Fault::BadWords => 1,
            Fault::KeptDamaged(_) => 15,
            Fault::KeptSize(_) => 15,
            Fault::Damaged(_) => 2,
            Fault::WrongSize(_) => 3,
            Fault::Stopped(obstacle) => obstacle_status(obstacle),
            Fault::Disk => 4,
            Fault::Console => 6,
            Fault::Worn => 8,
            Fault::NoMemory => 10,
        }
    }

    fn report<W: Console>(self, alloc: Global, world: &mut W) {
        match self {
            Fault::BadWords => try_line(world, b"smd: bad words\n"),
            Fault::KeptDamaged(at) => try_numbered(alloc, world, "smd: kept damaged at ", at),
            Fault::KeptSize(size) => try_numbered(alloc, world, "smd: kept has size ", size),
            Fault::Damaged(at) => try_numbered(alloc, world, "smd: store damaged at ", at),
            Fault::WrongSize(size) => try_numbered(alloc, world, "smd: store has size ", size),
            Fault::Stopped(obstacle) => try_line(world, obstacle_line(obstacle)),
            Fault::Disk => try_line(world, b"smd: disk fault\n"),
            Fault::Console => {}
            Fault::Worn => try_line(world, b"smd: store worn\n"),
            Fault::NoMemory => try_line(world, b"smd: no memory\n"),
        }
    }
}
