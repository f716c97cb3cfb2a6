ghost use Rattle.std.specs.Prelude.{◌≡◌, ◌≤◌, length, slice_index, IfOk, IsErr};
ghost use Rattle.ice_values.specs.Frames.{IsFrame};
ghost use Rattle.ice_messages.specs.Reading.{decode_at as ice_at};
ghost use Rattle.xsmp_messages.specs.Reading.{decode_at as xsmp_at};
ghost use Rattle.message_text.specs.Lines.{ice_text, xsmp_text};
ghost use Rattle.trace_replay.specs.Parts.{IsHeaded};
ghost use Rattle.trace_replay.specs.Frames.{refusal_text, text_of, last_minor, header_refusal, is_whole as whole_in, frame_text as text_in, xsmp_in as message_in};
ghost use Rattle.ice_values.specs.declared.refusals.DecodeRefusal.TheVariants.{NoMemory as OutOfMemory};

use ice_framing::WholeFrame;
use ice_messages::{LAST_ICE_MINOR, decode_ice};
use ice_values::{DecodeRefusal, Endian, read_card32};
use message_text::{Writing, ice_line, xsmp_line};
use owned_lists::{NoMemory, Octets};
use std::alloc::Global;
use xsmp_messages::{LAST_XSMP_MINOR, XsmpMessage, decode_xsmp};

const HEADER_LEN: usize = 8;

/// Why there is no message, in one word.
fn refused_text(alloc: Global, refusal: DecodeRefusal) -> Result<Octets, NoMemory>
    ensures text { IfOk result (λ text. text ≡ refusal_text refusal) }
    ensures memory { refusal ≡ OutOfMemory → IsErr result }
{
    match refusal {
        DecodeRefusal::BadMinor => Octets::from_slice(alloc, b"BadMinor"),
        DecodeRefusal::BadLength => Octets::from_slice(alloc, b"BadLength"),
        DecodeRefusal::BadValue { .. } => Octets::from_slice(alloc, b"BadValue"),
        DecodeRefusal::NoMemory => Err(NoMemory),
    }
}

/// The line of a frame of ICE.
fn ice_frame_text(
    alloc: Global,
    writing: Writing,
    endian: Endian,
    frame: &[u8],
) -> Result<Octets, NoMemory>
    requires whole { IsFrame endian frame.now }
    requires opcode { slice_index frame.now 0 ≡ 0 }
    ensures { IfOk result (λ text. text ≡ text_of (ice_text writing) (ice_at endian frame.now)) }
{
    match decode_ice(alloc, endian, frame) {
        Ok(message) => ice_line(alloc, writing, &message),
        Err(refusal) => refused_text(alloc, refusal),
    }
}

/// The line of a frame of XSMP.
fn xsmp_frame_text(
    alloc: Global,
    writing: Writing,
    endian: Endian,
    frame: &[u8],
) -> Result<Octets, NoMemory>
    requires { IsFrame endian frame.now }
    ensures { IfOk result (λ text. text ≡ text_of (xsmp_text writing) (xsmp_at endian frame.now)) }
{
    match decode_xsmp(alloc, endian, frame) {
        Ok(message) => xsmp_line(alloc, writing, &message),
        Err(refusal) => refused_text(alloc, refusal),
    }
}

/// Whether a frame has the units that its header states.
fn is_whole(endian: Endian, frame: &[u8]) -> bool
    requires { 8 ≤ length frame.now }
    ensures { result ≡ whole_in endian frame.now }
{
    let (_, length) = frame.split_at(4);
    HEADER_LEN + 8 * read_card32(endian, length) as usize == frame.len()
}

/// Why a header alone is no message that states more than itself.
fn refuse_header(header: &[u8]) -> DecodeRefusal
    requires { 8 ≤ length header.now }
    ensures { result ≡ header_refusal header.now }
{
    let last = if header[0] == 0 {
        LAST_ICE_MINOR
    } else {
        LAST_XSMP_MINOR
    };
    if header[1] <= last {
        DecodeRefusal::BadLength
    } else {
        DecodeRefusal::BadMinor
    }
}

/// The line of the message that a frame spells, or why it spells none.
pub fn frame_text(alloc: Global, writing: Writing, frame: &WholeFrame) -> Result<Octets, NoMemory>
    requires { IsHeaded frame.now }
    ensures { IfOk result (λ text. text ≡ text_in writing frame.now) }
{
    let bytes = frame.bytes.as_slice();
    if !is_whole(frame.endian, bytes) {
        return refused_text(alloc, refuse_header(bytes));
    }
    if bytes[0] == 0 {
        ice_frame_text(alloc, writing, frame.endian, bytes)
    } else {
        xsmp_frame_text(alloc, writing, frame.endian, bytes)
    }
}

/// The message of XSMP that a frame spells; `None` where it spells none.
pub fn xsmp_in(alloc: Global, frame: &WholeFrame) -> Result<Option<XsmpMessage>, NoMemory>
    requires { IsHeaded frame.now }
    ensures { IfOk result (λ found. found ≡ message_in frame.now) }
{
    let bytes = frame.bytes.as_slice();
    if !is_whole(frame.endian, bytes) || bytes[0] == 0 {
        return Ok(None);
    }
    match decode_xsmp(alloc, frame.endian, bytes) {
        Ok(message) => Ok(Some(message)),
        Err(DecodeRefusal::NoMemory) => Err(NoMemory),
        Err(_) => Ok(None),
    }
}
