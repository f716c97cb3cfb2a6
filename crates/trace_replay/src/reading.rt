ghost use Rattle.std.specs.Prelude.{◌≡◌, ◌++◌, ◌∷◌, [], List, IfOk, IfErr, OnOk};
ghost use Rattle.std.specs.List.{AllByRecursion};
ghost use Rattle.sm_world.specs.Events.{HasPieceSize};
ghost use Rattle.control_lines.specs.Script.{IsRefusal};
ghost use Rattle.trace_replay.specs.Grammar.{SaysLine};
ghost use Rattle.trace_replay.specs.Traces.{AreSized, ReadsAs, ReadsLines, event_in, events_in};
ghost use Rattle.trace_replay.specs.declared.lines.TraceLine.{TraceLine as AnyLine};

use crate::lines::{TraceLine, TraceLineList, read_trace_line};
use crate::opening::{Opening, read_opening};
use control_lines::{OrderRefusal, next_line};
use owned_lists::NoMemory;
use sm_world::{Event, EventList};
use std::alloc::Global;
use std::collections::VecDeque;

/// What a text is read as.
#[derive(Drop)]
pub enum Reading {
    /// A trace with this opening and these events.
    Whole(Opening, EventList),
    /// This line, counted from 1, is the first that isn't of the grammar.
    Malformed { at: u64 },
}

/// What the lines of a text are read as.
#[derive(Drop)]
pub enum LineReading {
    /// A trace with this opening, whose other lines say this.
    Whole(Opening, TraceLineList),
    /// This line, counted from 1, is the first that isn't of the grammar.
    Malformed { at: u64 },
}

/// Adds what a line says to what those before it say.
fn take_line(alloc: Global, lines: &mut TraceLineList, line: &[u8]) -> Result<(), OrderRefusal>
    ensures taken { OnOk result ((said : AnyLine) × SaysLine line.now said
        × (lines.new ≡ lines.old ++ said ∷ [])) }
    ensures refused { IfErr result (IsRefusal (SaysLine line.now)) }
{
    let said = read_trace_line(alloc, line)?;
    lines.push(said)?;
    Ok(())
}

/// Reads the lines of a trace. Where it has more bytes than this, its last line isn't of the grammar.
pub fn read_lines(alloc: Global, text: &[u8], limit: usize) -> Result<LineReading, NoMemory>
    ensures reads { IfOk result (ReadsLines limit text.now) }
{
    let opening = read_opening(alloc, text)?;
    let crowded = opening.crowded_at(alloc)?;
    match crowded {
        Some(at) => return Ok(LineReading::Malformed { at }),
        None => {}
    }
    let mut lines = TraceLineList::new(alloc);
    let mut left = opening.behind(text);
    let mut number = opening.size();
    if left.is_empty() && text.len() > limit {
        return Ok(LineReading::Malformed { at: number });
    }
    while !left.is_empty() {
        let (line, rest) = next_line(left);
        number += 1;
        if rest.is_empty() && text.len() > limit {
            return Ok(LineReading::Malformed { at: number });
        }
        match take_line(alloc, &mut lines, line) {
            Ok(()) => {}
            Err(OrderRefusal::BadLine) => return Ok(LineReading::Malformed { at: number }),
            Err(OrderRefusal::NoMemory) => return Err(NoMemory),
        }
        left = rest;
    }
    Ok(LineReading::Whole(opening, lines))
}

/// Adds the event that a line says to those before it, and nothing for a line about a deed.
fn take_event(events: &mut EventList, said: TraceLine) -> Result<(), NoMemory>
    ensures { OnOk result (events.new ≡ events.old ++ event_in said) }
{
    match said {
        TraceLine::Heard(event) => events.push(event),
        TraceLine::End => events.push(Event::End),
        TraceLine::Sent(..) => Ok(()),
        TraceLine::Shut(_) => Ok(()),
        TraceLine::Started(..) => Ok(()),
        TraceLine::Printed(_) => Ok(()),
    }
}

/// The events among some lines.
fn events_of(alloc: Global, lines: TraceLineList) -> Result<EventList, NoMemory>
    ensures { IfOk result (λ events. events ≡ events_in lines) }
{
    let mut events = EventList::new(alloc);
    let mut left = VecDeque::from(lines.into_vec());
    while let Some(said) = left.pop_front() {
        take_event(&mut events, said)?;
    }
    Ok(events)
}

/// Reads a trace. Where it has more bytes than this, its last line isn't of the grammar.
pub fn read_trace(alloc: Global, text: &[u8], limit: usize) -> Result<Reading, NoMemory>
    ensures reads { IfOk result (ReadsAs limit text.now) }
    ensures sized { IfOk result AreSized }
{
    match read_lines(alloc, text, limit)? {
        LineReading::Whole(opening, lines) => {
            Ok(Reading::Whole(opening, events_of(alloc, lines)?))
        }
        LineReading::Malformed { at } => Ok(Reading::Malformed { at }),
    }
}
