ghost use Rattle.std.specs.Prelude.{◌≤◌, IfOk, length};
ghost use Rattle.std.specs.List.{AllByRecursion};
ghost use Rattle.sm_world.specs.Events.{HasPieceSize};
ghost use Rattle.outer_agent.specs.Words.{AreFew};
ghost use Rattle.smnest_app.specs.Rehearsals.{Rehearses};

use ice_values::Array8;
use nested_session::serve_nested;
use outer_agent::Agent;
use owned_lists::{NoMemory, Octets, OctetsList};
use session_engine::{ServeFault, config_of_default};
use session_in_memory::{REHEARSAL_COOKIE, blank_store};
use sm_world::{EventList, SteadyWorld};
use smd_app::Rehearsal;
use std::alloc::Global;

/// Runs these events and then End as a session inside another, on a world in memory whose store is
/// blank, at most `turns` of them. The agent has this ID of an earlier session, or an empty one, and
/// these words.
pub fn run_in_memory(
    alloc: Global,
    events: EventList,
    id: Array8,
    words: OctetsList,
    turns: u64,
) -> Result<Rehearsal, NoMemory>
    requires sized { AllByRecursion HasPieceSize events }
    requires id { length id ≤ 512 }
    requires few { AreFew words }
    ensures { IfOk result (Rehearses id words events turns) }
{
    let store = blank_store(alloc)?;
    let mut world = SteadyWorld::new(alloc, events, Octets::new(alloc), store)?;
    let (agent, first) = match Agent::new(alloc, REHEARSAL_COOKIE, id, words) {
        Ok(begun) => begun,
        Err(NoMemory) => return Err(NoMemory),
    };
    let config = config_of_default(alloc, REHEARSAL_COOKIE, 0)?;
    let finished = match serve_nested(alloc, &mut world, config, agent, first, turns) {
        Ok(()) => true,
        Err(ServeFault::Spent) => false,
        Err(ServeFault::NoMemory) => return Err(NoMemory),
        // This disk fails for want of memory alone, and that is found long before the numbers of
        // the checkpoints are used up.
        Err(ServeFault::DiskFault) => return Err(NoMemory),
        Err(ServeFault::Worn) => return Err(NoMemory),
        Err(ServeFault::WrongSize { .. }) => unreachable!(),
        Err(ServeFault::Damaged { .. }) => unreachable!(),
        Err(ServeFault::TooManySessions) => unreachable!(),
        Err(ServeFault::LinkFault) => unreachable!(),
        Err(ServeFault::ConsoleFault) => unreachable!(),
    };
    Ok(Rehearsal { world, finished })
}
