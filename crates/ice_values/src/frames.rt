ghost use Rattle.std.specs.Prelude.{◌≡◌, ◌≤◌, length};
ghost use Rattle.ice_values.specs.Reading.{nothing_at};
ghost use Rattle.ice_values.specs.Frames.{IsFrame, Gives, body_at, ended, error_at, is_read};

use crate::numbers::{read_card16, read_card32};
use crate::{DecodeRefusal, Endian, ErrorBody, Spelled, value_at};
use owned_lists::Octets;
use std::alloc::Global;

/// Ends a body, of which no more than padding may be left.
#[tactic(auto, unfolding(crate::specs::Frames::ended))]
pub fn end_body(rest: &[u8]) -> Result<(), DecodeRefusal>
    ensures { result ≡ ended rest.now }
{
    if rest.len() < 8 {
        Ok(())
    } else {
        Err(DecodeRefusal::BadLength)
    }
}

/// Reads a body without anything.
#[tactic(auto, unfolding(crate::specs::Frames::body_at, crate::specs::Frames::cut, crate::specs::Reading::nothing_at))]
pub fn no_body(frame: &[u8]) -> Result<(), DecodeRefusal>
    requires { 8 ≤ length frame.now }
    ensures gives { Gives result (body_at nothing_at frame.now) }
    ensures exact { result ≡ body_at nothing_at frame.now }
{
    let (_, body) = frame.split_at(8);
    end_body(body)
}

/// A body that is one value, and no more than padding behind it.
#[tactic(auto, unfolding(crate::specs::Frames::body_at, crate::specs::Frames::cut))]
pub fn body<T: Spelled>(alloc: Global, endian: Endian, frame: &[u8]) -> Result<T, DecodeRefusal>
    requires { 8 ≤ length frame.now }
    ensures { Gives result (body_at (T.front endian) frame.now) }
{
    let (_, body) = frame.split_at(8);
    let (value, rest) = T::take(alloc, endian, body)?;
    end_body(rest)?;
    Ok(value)
}

/// Whether a body is one value, and no more than padding behind it. This takes no memory.
#[tactic(auto, unfolding(crate::specs::Frames::body_at, crate::specs::Frames::cut))]
pub fn check_body<T: Spelled>(endian: Endian, frame: &[u8]) -> Result<(), DecodeRefusal>
    requires { 8 ≤ length frame.now }
    ensures { result ≡ is_read (body_at (T.front endian) frame.now) }
{
    let (_, body) = frame.split_at(8);
    match T::pass(endian, body) {
        Some(rest) => end_body(rest),
        None => Err(DecodeRefusal::BadLength),
    }
}

/// What an Error says, of ICE or of a protocol over it, in a frame whose minor opcode is 0.
#[tactic(auto, unfolding(crate::specs::Frames::error_at))]
pub fn decode_error(alloc: Global, endian: Endian, frame: &[u8]) -> Result<ErrorBody, DecodeRefusal>
    requires { IsFrame endian frame.now }
    ensures { Gives result (error_at endian frame.now) }
{
    if frame.len() < 16 {
        return Err(DecodeRefusal::BadLength);
    }
    let severity = value_at(frame, 9)?;
    let values = Octets::from_slice(alloc, &frame[16..])?;
    Ok(ErrorBody {
        class: read_card16(endian, &frame[2..]),
        minor: frame[8],
        severity,
        sequence: read_card32(endian, &frame[12..]),
        values,
    })
}
