ghost use Rattle.std.specs.Prelude.{IfErr, IfOk, OnOk};
ghost use Rattle.std.specs.List.{AllByRecursion};
ghost use Rattle.control_lines.specs.Script.{IsRefusal};
ghost use Rattle.trace_replay.specs.Grammar.{SaysLine};
ghost use Rattle.trace_replay.specs.Parts.{IsHeaded};
ghost use Rattle.trace_replay.specs.Shows.{Shows, ShowsWithin};
ghost use Rattle.trace_replay.specs.Watches.{FollowsLine, PutsLine};
ghost use Rattle.trace_replay.specs.declared.lines.TraceLine.{TraceLine as AnyLine};

use crate::flows::Brought;
use crate::lines::{TraceLine, read_trace_line};
use crate::opening::read_opening;
use crate::parts::{Channel, Direction, put_parts};
use crate::watch::Watch;
use control_lines::{OrderRefusal, next_line};
use owned_lists::{NoMemory, Octets};
use sm_world::Event;
use std::alloc::Global;

/// What showing a trace answers.
#[derive(Debug, Drop)]
pub enum ShowAnswer {
    /// The line of each frame.
    Text(Octets),
    /// This line, counted from 1, is the first that isn't of the grammar.
    Malformed { at: u64 },
}

/// Appends what is shown of a line that brought these parts.
fn put_shown(
    alloc: Global,
    out: &mut Octets,
    said: &TraceLine,
    brought: &Brought,
) -> Result<(), NoMemory>
    requires { AllByRecursion IsHeaded brought.now.frames }
    ensures { OnOk result (PutsLine said.now brought.now out.old out.new) }
{
    match said {
        TraceLine::Heard(event) => put_heard(alloc, out, event, brought),
        TraceLine::Sent(conn, _) => {
            let channel = Channel {
                direction: Direction::Out,
                conn: *conn,
            };
            put_parts(alloc, out, channel, brought)
        }
        TraceLine::End => Ok(()),
        TraceLine::Shut(_) => Ok(()),
        TraceLine::Started(..) => Ok(()),
        TraceLine::Printed(_) => Ok(()),
    }
}

/// Appends what is shown of an event that brought these parts.
fn put_heard(
    alloc: Global,
    out: &mut Octets,
    event: &Event,
    brought: &Brought,
) -> Result<(), NoMemory>
    requires { AllByRecursion IsHeaded brought.now.frames }
    ensures { OnOk result (PutsLine (TraceLine.Heard event.now) brought.now out.old out.new) }
{
    match event {
        Event::Piece(conn, _) => {
            let channel = Channel {
                direction: Direction::In,
                conn: *conn,
            };
            put_parts(alloc, out, channel, brought)
        }
        Event::Joined(_) => Ok(()),
        Event::Gone(_) => Ok(()),
        Event::Operator(_) => Ok(()),
        Event::Tick(_) => Ok(()),
        Event::End => Ok(()),
    }
}

/// Appends what is shown of a line, and goes on with it.
fn take_line(
    alloc: Global,
    watch: &mut Watch,
    out: &mut Octets,
    line: &[u8],
) -> Result<(), OrderRefusal>
    ensures taken { OnOk result ((said : AnyLine) × SaysLine line.now said
        × FollowsLine said watch.old watch.new out.old out.new) }
    ensures refused { IfErr result (IsRefusal (SaysLine line.now)) }
{
    let said = read_trace_line(alloc, line)?;
    let brought = watch.take(alloc, &said)?;
    put_shown(alloc, out, &said, &brought)?;
    Ok(())
}

/// Shows a trace. Where it has more bytes than this, its last line isn't of the grammar.
pub fn show_within(alloc: Global, trace: &[u8], limit: usize) -> Result<ShowAnswer, NoMemory>
    ensures { IfOk result (ShowsWithin limit trace.now) }
{
    let opening = read_opening(alloc, trace)?;
    let crowded = opening.crowded_at(alloc)?;
    match crowded {
        Some(at) => return Ok(ShowAnswer::Malformed { at }),
        None => {}
    }
    let mut watch = Watch::new(alloc);
    let mut text = Octets::new(alloc);
    let mut left = opening.behind(trace);
    let mut number = opening.size();
    if left.is_empty() && trace.len() > limit {
        return Ok(ShowAnswer::Malformed { at: number });
    }
    while !left.is_empty() {
        let (line, rest) = next_line(left);
        number += 1;
        if rest.is_empty() && trace.len() > limit {
            return Ok(ShowAnswer::Malformed { at: number });
        }
        match take_line(alloc, &mut watch, &mut text, line) {
            Ok(()) => {}
            Err(OrderRefusal::BadLine) => return Ok(ShowAnswer::Malformed { at: number }),
            Err(OrderRefusal::NoMemory) => return Err(NoMemory),
        }
        left = rest;
    }
    Ok(ShowAnswer::Text(text))
}

/// Shows each message of a trace in a line of its own: `in` or `out`, the connection, the number of
/// the message, and its text. Messages are numbered from 1 in each direction of a connection, anew
/// behind each `join`. A frame that spells no message has the text `BadMinor`, `BadLength` or
/// `BadValue`. A header that states too much has `Oversize`, and nothing is shown behind it.
///
/// The lines of a trace are those of a script that say an event, `end`, `sent N HEX`, `shut N`,
/// `started` and `unstarted` with a command, and `printed` with any text. In front of them may stand
/// `cookie HEX`, `book HEX`, `patience MS` and `session NAME`, in this order, of which nothing is shown.
pub fn show(alloc: Global, trace: &[u8]) -> Result<ShowAnswer, NoMemory>
    ensures { IfOk result (Shows trace.now) }
{
    show_within(alloc, trace, trace.len())
}
