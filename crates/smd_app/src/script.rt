ghost use Rattle.std.specs.Prelude.{◌≡◌, List, [], ◌∷◌, ◌++◌, IfOk, IfErr, OnOk};
ghost use Rattle.std.specs.List.{AllByRecursion};
ghost use Rattle.sm_world.specs.Events.{HasPieceSize};
ghost use Rattle.sm_world.specs.declared.events.Event.{Event};
ghost use Rattle.control_lines.specs.Script.{Gives, IsRefusal, SayAll};
ghost use Rattle.smd_app.specs.Script.{ScriptSays};
ghost use Rattle.smd_app.specs.Faults.{IsScriptFault};

use control_lines::{OrderRefusal, next_line, read_script_line};
use sm_world::EventList;
use std::alloc::Global;

/// How many bytes a script can have. A line that holds a byte past these is none.
pub const SCRIPT_LIMIT: usize = 16_777_216;

/// Why a script has no events.
#[derive(Clone, Copy, Debug, PartialEq, Eq)]
pub enum ScriptFault {
    /// This line, counted from 1, is the first that isn't of the grammar.
    BadLine(u64),
    NoMemory,
}

/// Adds the event that a line says to those before it, and nothing for a line that is skipped.
fn take_line(alloc: Global, events: &mut EventList, line: &[u8]) -> Result<(), OrderRefusal>
    ensures taken { OnOk result ((said : List Event) × SayAll (line.now ∷ []) said
        × (events.new ≡ events.old ++ said)) }
    ensures refused { IfErr result (IsRefusal (Gives line.now)) }
{
    match read_script_line(alloc, line)? {
        None => Ok(()),
        Some(event) => {
            events.push(event)?;
            Ok(())
        }
    }
}

/// The events that the lines of a script say.
pub fn read_script(alloc: Global, script: &[u8]) -> Result<EventList, ScriptFault>
    ensures says { IfOk result (ScriptSays script.now) }
    ensures sized { IfOk result (AllByRecursion HasPieceSize) }
    ensures bad { IfErr result (IsScriptFault script.now) }
{
    let mut events = EventList::new(alloc);
    let mut left = script;
    let mut number = 0u64;
    while !left.is_empty() {
        let (line, rest) = next_line(left);
        number += 1;
        if rest.is_empty() && script.len() > SCRIPT_LIMIT {
            return Err(ScriptFault::BadLine(number));
        }
        match take_line(alloc, &mut events, line) {
            Ok(()) => {}
            Err(OrderRefusal::BadLine) => return Err(ScriptFault::BadLine(number)),
            Err(OrderRefusal::NoMemory) => return Err(ScriptFault::NoMemory),
        }
        left = rest;
    }
    Ok(events)
}
