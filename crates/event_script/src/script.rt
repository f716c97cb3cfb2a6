ghost use Rattle.std.specs.Prelude.{◌≡◌, ◌↔◌, IsTrue, List, [], ◌∷◌, ◌++◌, IfOk, IfErr, OnOk};
ghost use Rattle.std.specs.List.{AllByRecursion};
ghost use Rattle.sm_world.specs.Events.{HasPieceSize};
ghost use Rattle.sm_world.specs.declared.events.Event.{Event};
ghost use Rattle.control_lines.specs.Script.{IsRefusal, SayAll};
ghost use Rattle.event_script.specs.Script.{IsTaken, GivesTaken, ScriptSays};
ghost use Rattle.event_script.specs.Faults.{IsScriptFault};

use control_lines::{OrderRefusal, next_line, read_script_line};
use sm_world::{Event, EventList};
use std::alloc::Global;

/// How many bytes a script can have. A line that holds a byte past these is none.
pub const SCRIPT_LIMIT: usize = 16_777_216;

/// Which events the lines of a script may say.
#[derive(Clone, Copy, Debug, PartialEq, Eq)]
pub enum Taken {
    /// All that a line can say.
    All,
    /// All but the operator's orders.
    WithoutOrders,
}

/// Why a script has no events.
#[derive(Clone, Copy, Debug, PartialEq, Eq)]
pub enum ScriptFault {
    /// This line, counted from 1, is the first that isn't of the grammar.
    BadLine(u64),
    NoMemory,
}

/// Whether a line may say this event.
fn is_taken(taken: Taken, event: &Event) -> bool
    ensures { IsTrue result ↔ IsTaken taken event.now }
{
    match taken {
        Taken::All => true,
        Taken::WithoutOrders => !matches!(event, Event::Operator(_)),
    }
}

/// Adds the event that a line says to those before it, and nothing for a line that is skipped.
fn take_line(
    alloc: Global,
    events: &mut EventList,
    line: &[u8],
    taken: Taken,
) -> Result<(), OrderRefusal>
    ensures taken { OnOk result ((said : List Event) × SayAll (line.now ∷ []) said
        × AllByRecursion (IsTaken taken) said × (events.new ≡ events.old ++ said)) }
    ensures refused { IfErr result (IsRefusal (GivesTaken taken line.now)) }
{
    match read_script_line(alloc, line)? {
        None => Ok(()),
        Some(event) => {
            if !is_taken(taken, &event) {
                return Err(OrderRefusal::BadLine);
            }
            events.push(event)?;
            Ok(())
        }
    }
}

/// The events that the lines of a script say.
pub fn read_script(alloc: Global, script: &[u8], taken: Taken) -> Result<EventList, ScriptFault>
    ensures says { IfOk result (ScriptSays taken script.now) }
    ensures sized { IfOk result (AllByRecursion HasPieceSize) }
    ensures bad { IfErr result (IsScriptFault taken script.now) }
{
    let mut events = EventList::new(alloc);
    let mut left = script;
    let mut number = 0u64;
    while !left.is_empty() {
        let (line, rest) = next_line(left);
        number += 1;
        if rest.is_empty() && script.len() > SCRIPT_LIMIT {
            return Err(ScriptFault::BadLine(number));
        }
        match take_line(alloc, &mut events, line, taken) {
            Ok(()) => {}
            Err(OrderRefusal::BadLine) => return Err(ScriptFault::BadLine(number)),
            Err(OrderRefusal::NoMemory) => return Err(ScriptFault::NoMemory),
        }
        left = rest;
    }
    Ok(events)
}
