ghost use Rattle.std.specs.Prelude.{◌≡◌, ℕ, List, IfOk, IfErr, MatchOption};
ghost use Rattle.control_lines.specs.Script.{Says, SaysPiece, Gives, IsRefusal};

use crate::fields::{read_bytes, read_conn, read_number};
use crate::orders::{OrderRefusal, read_order};
use owned_lists::{NoMemory, Octets};
use sm_world::{Conn, Event, PIECE_LIMIT};
use std::alloc::Global;

/// The event that a script line says, without its newline; `None` for an empty line and for one
/// that begins with `#`. The lines are `join N`, `piece N HEX`, `gone N`, `order LINE` and
/// `tick MS`. Any other line is `BadLine`.
pub fn read_script_line(alloc: Global, line: &[u8]) -> Result<Option<Event>, OrderRefusal>
    ensures gives { IfOk result (Gives line.now) }
    ensures refused { IfErr result (IsRefusal (Gives line.now)) }
{
    if line.is_empty() || line[0] == b'#' {
        return Ok(None);
    }
    Ok(Some(read_event(alloc, line)?))
}

/// The number of a connection and the bytes of a piece, of which there are at most 65,536.
fn read_piece(alloc: Global, fields: &[u8]) -> Result<Option<(Conn, Octets)>, NoMemory>
    ensures { IfOk result (λ found.
        MatchOption found ((n : ℕ) (bytes : List ℕ) → ¬ (SaysPiece fields.now n bytes)) (λ found.
        SaysPiece fields.now found.0 found.1)) }
{
    let Some((conn, bytes)) = read_bytes(alloc, fields)? else {
        return Ok(None);
    };
    if bytes.len() > PIECE_LIMIT {
        return Ok(None);
    }
    Ok(Some((conn, bytes)))
}

/// The event that a line says.
fn read_event(alloc: Global, line: &[u8]) -> Result<Event, OrderRefusal>
    ensures says { IfOk result (Says line.now) }
    ensures refused { IfErr result (IsRefusal (Says line.now)) }
{
    if let Some(field) = line.strip_prefix(b"join ") {
        return read_conn(alloc, field)?
            .map(Event::Joined)
            .ok_or(OrderRefusal::BadLine);
    }
    if let Some(field) = line.strip_prefix(b"gone ") {
        return read_conn(alloc, field)?
            .map(Event::Gone)
            .ok_or(OrderRefusal::BadLine);
    }
    if let Some(field) = line.strip_prefix(b"tick ") {
        return read_number(alloc, field)?
            .map(Event::Tick)
            .ok_or(OrderRefusal::BadLine);
    }
    if let Some(rest) = line.strip_prefix(b"order ") {
        return Ok(Event::Operator(read_order(alloc, rest)?));
    }
    if let Some(fields) = line.strip_prefix(b"piece ") {
        return match read_piece(alloc, fields)? {
            Some((conn, bytes)) => Ok(Event::Piece(conn, bytes)),
            None => Err(OrderRefusal::BadLine),
        };
    }
    Err(OrderRefusal::BadLine)
}
