ghost use Rattle.std.specs.Prelude.{◌≡◌, ℕ, Bool, List, IfOk, IfErr, IfSome, IsNone};
ghost use Rattle.control_lines.specs.Script.{IsRefusal};
ghost use Rattle.trace_replay.specs.Commands.{IsCommand};
ghost use Rattle.trace_replay.specs.Grammar.{BeginsCommand, SaysLine};

use crate::commands::is_command;
use control_lines::{OrderRefusal, read_bytes, read_conn, read_script_line};
use owned_lists::{ListOf, Octets};
use sm_world::{Conn, Event};
use std::alloc::Global;

/// What a line of a trace says.
#[derive(Debug, Drop)]
pub enum TraceLine {
    /// An event that a script can say.
    Heard(Event),
    /// `end`
    End,
    /// `sent N HEX`
    Sent(Conn, Octets),
    /// `shut N`
    Shut(Conn),
    /// `started` or `unstarted`, by whether it could be, and the fields of a command.
    Started(bool, Octets),
    /// `printed`, and any text.
    Printed(Octets),
}

pub type TraceLineList = ListOf<TraceLine>;

/// Whether a command was started, and the text behind the word that says so.
fn command_text(line: &[u8]) -> Option<(bool, &[u8])>
    ensures some { IfSome result (λ found. BeginsCommand line.now found.0 found.1.now) }
    ensures none { IsNone result → (succeeded : Bool) (text : List ℕ) →
        ¬ (BeginsCommand line.now succeeded text) }
{
    if let Some(text) = line.strip_prefix(b"started ") {
        return Some((true, text));
    }
    match line.strip_prefix(b"unstarted ") {
        Some(text) => Some((false, text)),
        None => None,
    }
}

/// The command that was started, or couldn't be, with these fields.
fn read_started(alloc: Global, succeeded: bool, text: &[u8]) -> Result<TraceLine, OrderRefusal>
    ensures says { IfOk result (λ said. IsCommand text.now
        × (said ≡ TraceLine.Started succeeded text.now)) }
    ensures refused { IfErr result (λ refusal. refusal ≡ OrderRefusal.BadLine →
        ¬ (IsCommand text.now)) }
{
    if is_command(alloc, text)? {
        Ok(TraceLine::Started(succeeded, Octets::from_slice(alloc, text)?))
    } else {
        Err(OrderRefusal::BadLine)
    }
}

/// What a line of a trace says, without its newline. Lines that a script skips say nothing here.
pub fn read_trace_line(alloc: Global, line: &[u8]) -> Result<TraceLine, OrderRefusal>
    ensures says { IfOk result (SaysLine line.now) }
    ensures refused { IfErr result (IsRefusal (SaysLine line.now)) }
{
    if line == b"end".as_slice() {
        return Ok(TraceLine::End);
    }
    if let Some(fields) = line.strip_prefix(b"sent ") {
        return match read_bytes(alloc, fields)? {
            Some((conn, bytes)) => Ok(TraceLine::Sent(conn, bytes)),
            None => Err(OrderRefusal::BadLine),
        };
    }
    if let Some(field) = line.strip_prefix(b"shut ") {
        return read_conn(alloc, field)?
            .map(TraceLine::Shut)
            .ok_or(OrderRefusal::BadLine);
    }
    if let Some(text) = line.strip_prefix(b"printed ") {
        return Ok(TraceLine::Printed(Octets::from_slice(alloc, text)?));
    }
    if let Some((succeeded, text)) = command_text(line) {
        return read_started(alloc, succeeded, text);
    }
    match read_script_line(alloc, line) {
        Ok(Some(event)) => Ok(TraceLine::Heard(event)),
        Ok(None) => Err(OrderRefusal::BadLine),
        Err(OrderRefusal::BadLine) => Err(OrderRefusal::BadLine),
        Err(OrderRefusal::NoMemory) => Err(OrderRefusal::NoMemory),
    }
}
