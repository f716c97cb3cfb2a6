ghost use Rattle.std.specs.Prelude.{◌≡◌, false, IfOk};
ghost use Rattle.std.specs.List.{AllByRecursion};
ghost use Rattle.sm_world.specs.Events.{HasPieceSize};
ghost use Rattle.byte_relay.specs.Relaying.{has_end};
ghost use Rattle.smrelay_app.specs.Rehearsals.{Rehearses};

use byte_relay::{RelayFault, serve_relay};
use ice_values::Endian;
use owned_lists::{NoMemory, Octets};
use sm_world::{EventList, SteadyWorld};
use std::alloc::Global;

/// A run on a world in memory.
#[derive(Drop)]
pub struct Rehearsal {
    /// The world behind the run.
    pub world: SteadyWorld,
    /// Whether End was heard within the turns.
    pub finished: bool,
}

/// Relays these events and then End on a world in memory, at most `turns` of them.
pub fn run_in_memory(
    alloc: Global,
    events: EventList,
    to: Endian,
    turns: u64,
) -> Result<Rehearsal, NoMemory>
    requires sized { AllByRecursion HasPieceSize events }
    requires endless { has_end events ≡ false }
    ensures { IfOk result (Rehearses to events turns) }
{
    let mut world = SteadyWorld::new(alloc, events, Octets::new(alloc), Octets::new(alloc))?;
    let finished = match serve_relay(alloc, &mut world, to, turns) {
        Ok(()) => true,
        Err(RelayFault::Spent) => false,
        Err(RelayFault::NoMemory) => return Err(NoMemory),
        Err(RelayFault::LinkFault) => unreachable!(),
    };
    Ok(Rehearsal { world, finished })
}
