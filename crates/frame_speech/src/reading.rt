ghost use Rattle.std.specs.Prelude.{◌≡◌, ◌≤◌, length, slice_index, IfOk, IsTrue};
ghost use Rattle.ice_values.specs.Frames.{IsFrame};
ghost use Rattle.frame_speech.specs.Speech.{is_message, is_whole, greeting_in, opened_under, setup_in, opening_in, setting_in};

use ice_framing::WholeFrame;
use ice_messages::{IceMessage, decode_ice};
use ice_values::{DecodeRefusal, PropertyList, body, read_card32};
use owned_lists::NoMemory;
use std::alloc::Global;

/// What a frame says to somebody who follows the stream of its sender.
#[derive(Debug, Drop)]
pub enum Reading {
    /// Nothing that matters here.
    Nothing,
    /// The sender states the order of its numbers.
    Greets,
    /// The sender will send the messages of XSMP under this major opcode.
    Opens(u8),
    /// The sender sets these properties.
    Sets(PropertyList),
    /// It isn't understood.
    Unread,
}

/// The byte at a place, and 0 where there is none.
pub fn byte_at(bytes: &[u8], place: usize) -> u8
    ensures { result ≡ slice_index bytes.now place }
{
    if place < bytes.len() { bytes[place] } else { 0 }
}

/// Whether a frame has these opcodes.
pub fn is_message(major: u8, minor: u8, frame: &WholeFrame) -> bool
    ensures { result ≡ is_message major minor frame.now }
{
    let bytes = frame.bytes.as_slice();
    byte_at(bytes, 0) == major && byte_at(bytes, 1) == minor
}

/// Whether a frame has as many units as its header states.
pub fn is_whole(frame: &WholeFrame) -> bool
    ensures is { result ≡ is_whole frame.now }
    ensures frame { IsTrue result → IsFrame frame.now.endian frame.now.bytes }
{
    let bytes = frame.bytes.as_slice();
    if bytes.len() < 8 {
        return false;
    }
    let units = read_card32(frame.endian, &bytes[4..]);
    bytes.len() as u64 == 8 + 8 * u64::from(units)
}

pub fn greeting_in(frame: &WholeFrame) -> Reading
    ensures { result ≡ greeting_in frame.now }
{
    if is_message(0, 1, frame) && byte_at(frame.bytes.as_slice(), 2) < 2 {
        Reading::Greets
    } else {
        Reading::Unread
    }
}

fn opened_under(opcode: u8) -> Reading
    ensures { result ≡ opened_under opcode }
{
    if opcode == 0 {
        Reading::Unread
    } else {
        Reading::Opens(opcode)
    }
}

fn setup_in(message: &IceMessage) -> Reading
    ensures { result ≡ setup_in message.now }
{
    match message {
        IceMessage::ProtocolSetup {
            opcode,
            protocol,
            ..
        } => {
            if protocol.as_slice() == b"XSMP".as_slice() {
                opened_under(*opcode)
            } else {
                Reading::Nothing
            }
        }
        _ => Reading::Unread,
    }
}

/// What a frame says of a party that has greeted.
pub fn opening_in(alloc: Global, frame: &WholeFrame) -> Result<Reading, NoMemory>
    requires { IsFrame frame.now.endian frame.now.bytes }
    ensures { IfOk result (λ reading. reading ≡ opening_in frame.now) }
{
    if is_message(0, 7, frame) {
        return match decode_ice(alloc, frame.endian, frame.bytes.as_slice()) {
            Ok(message) => Ok(setup_in(&message)),
            Err(DecodeRefusal::BadMinor) => Ok(Reading::Unread),
            Err(DecodeRefusal::BadLength) => Ok(Reading::Unread),
            Err(DecodeRefusal::BadValue { .. }) => Ok(Reading::Unread),
            Err(DecodeRefusal::NoMemory) => Err(NoMemory),
        };
    }
    if is_message(0, 8, frame) {
        return Ok(opened_under(byte_at(frame.bytes.as_slice(), 3)));
    }
    Ok(Reading::Nothing)
}

/// What a frame says of a party that speaks XSMP.
pub fn setting_in(alloc: Global, opcode: u8, frame: &WholeFrame) -> Result<Reading, NoMemory>
    requires { IsFrame frame.now.endian frame.now.bytes }
    ensures { IfOk result (λ reading. reading ≡ setting_in opcode frame.now) }
{
    if !is_message(opcode, 12, frame) {
        return Ok(Reading::Nothing);
    }
    match body(alloc, frame.endian, frame.bytes.as_slice()) {
        Ok(properties) => Ok(Reading::Sets(properties)),
        Err(DecodeRefusal::BadMinor) => Ok(Reading::Unread),
        Err(DecodeRefusal::BadLength) => Ok(Reading::Unread),
        Err(DecodeRefusal::BadValue { .. }) => Ok(Reading::Unread),
        Err(DecodeRefusal::NoMemory) => Err(NoMemory),
    }
}
