ghost use Rattle.std.specs.Prelude.{◌≡◌, ◌++◌, ℕ, List, map, OnOk, IfOk};
ghost use Rattle.std.specs.List.{AllByRecursion};
ghost use Rattle.ice_framing.specs.Parts.{Whole};
ghost use Rattle.trace_replay.specs.Parts.{IsHeaded, PutsParts, ShowsParts};
ghost use Rattle.trace_replay.specs.Shown.{shown_line};

use crate::flows::Brought;
use crate::frames::frame_text;
use ice_framing::WholeFrame;
use message_text::Writing;
use owned_lists::{NoMemory, Octets};
use sm_world::Conn;
use std::alloc::Global;

/// The direction of a message, as the session manager sees it.
#[derive(Clone, Copy, Debug, PartialEq, Eq)]
pub enum Direction {
    In,
    Out,
}

/// One direction of a connection.
#[derive(Clone, Copy, Debug, PartialEq, Eq)]
pub struct Channel {
    pub direction: Direction,
    pub conn: Conn,
}

/// Appends a text with its direction, its connection and its number.
fn put_line(
    alloc: Global,
    out: &mut Octets,
    channel: Channel,
    sequence: u64,
    text: &[u8],
) -> Result<(), NoMemory>
    ensures { OnOk result
        (out.new ≡ out.old ++ shown_line channel.direction channel.conn sequence text.now) }
{
    let direction = match channel.direction {
        Direction::In => "in ",
        Direction::Out => "out ",
    };
    let conn = channel.conn.to_string(alloc)?;
    let sequence = sequence.to_string(alloc)?;
    out.append(direction.as_bytes())?;
    out.append(conn.as_bytes())?;
    out.append(b" ")?;
    out.append(sequence.as_bytes())?;
    out.append(b" ")?;
    out.append(text)?;
    out.append(b"\n")
}

/// Appends the lines of frames, of which so many came before, and says how many there are now.
fn put_frames(
    alloc: Global,
    out: &mut Octets,
    channel: Channel,
    before: u64,
    frames: &[WholeFrame],
) -> Result<u64, NoMemory>
    requires { AllByRecursion IsHeaded frames.now }
    ensures { IfOk result (ShowsParts channel before (map Whole frames.now) out.old out.new) }
{
    let mut sequence = before;
    for frame in frames {
        sequence = sequence.saturating_add(1);
        let text = frame_text(alloc, Writing::Codes, frame)?;
        put_line(alloc, out, channel, sequence, text.as_slice())?;
    }
    Ok(sequence)
}

/// Appends the lines of the parts that a piece brought.
pub fn put_parts(
    alloc: Global,
    out: &mut Octets,
    channel: Channel,
    brought: &Brought,
) -> Result<(), NoMemory>
    requires { AllByRecursion IsHeaded brought.now.frames }
    ensures { OnOk result (PutsParts channel brought.now out.old out.new) }
{
    let count = put_frames(
        alloc,
        out,
        channel,
        brought.before,
        brought.frames.as_slice(),
    )?;
    if brought.ended {
        return put_line(alloc, out, channel, count.saturating_add(1), b"Oversize");
    }
    Ok(())
}
