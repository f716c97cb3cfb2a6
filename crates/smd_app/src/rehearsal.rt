ghost use Rattle.std.specs.Prelude.{IfOk};
ghost use Rattle.std.specs.List.{AllByRecursion};
ghost use Rattle.sm_world.specs.Events.{HasPieceSize};
ghost use Rattle.smd_app.specs.Rehearsals.{Rehearses};

use owned_lists::{NoMemory, Octets};
use session_engine::{ServeFault, config_of_default, serve};
use session_in_memory::{REHEARSAL_COOKIE, blank_store};
use sm_world::{EventList, SteadyWorld};
use std::alloc::Global;

/// A run on a world in memory.
#[derive(Drop)]
pub struct Rehearsal {
    /// The world behind the run.
    pub world: SteadyWorld,
    /// Whether the run came to its own end within the turns.
    pub finished: bool,
}

/// Runs these events and then End on a world in memory whose store is blank, at most `turns` of them,
/// with this patience.
pub fn run_in_memory(
    alloc: Global,
    events: EventList,
    patience: u64,
    turns: u64,
) -> Result<Rehearsal, NoMemory>
    requires { AllByRecursion HasPieceSize events }
    ensures { IfOk result (Rehearses patience events turns) }
{
    let store = blank_store(alloc)?;
    let mut world = SteadyWorld::new(alloc, events, Octets::new(alloc), store)?;
    let config = config_of_default(alloc, REHEARSAL_COOKIE, patience)?;
    let finished = match serve(alloc, &mut world, config, turns) {
        Ok(()) => true,
        Err(ServeFault::Spent) => false,
        Err(ServeFault::NoMemory) => return Err(NoMemory),
        // This disk fails for want of memory alone, and that is found long before the numbers of
        // the checkpoints are used up.
        Err(ServeFault::DiskFault) => return Err(NoMemory),
        Err(ServeFault::Worn) => return Err(NoMemory),
        Err(ServeFault::WrongSize { .. }) => unreachable!(),
        Err(ServeFault::Damaged { .. }) => unreachable!(),
        Err(ServeFault::TooManySessions) => unreachable!(),
        Err(ServeFault::LinkFault) => unreachable!(),
        Err(ServeFault::ConsoleFault) => unreachable!(),
    };
    Ok(Rehearsal { world, finished })
}
