ghost use Rattle.std.specs.Prelude.{◌≡◌, ◌≤◌, length, slice_index, true, IfOk};
ghost use Rattle.ice_values.specs.Frames.{IsFrame};
ghost use Rattle.ice_messages.specs.Reading.{decode_at as ice_at};
ghost use Rattle.xsmp_messages.specs.Reading.{decode_at as xsmp_at};
ghost use Rattle.client_engine.specs.Received.{is_whole as is_whole_frame, ice_received, xsmp_received, stray_received, message_received, received_of, is_opcode as is_opcode_of};

use ice_framing::Frame;
use ice_messages::{IceMessage, decode_ice};
use ice_values::{DecodeRefusal, Endian, read_card32};
use owned_lists::NoMemory;
use std::alloc::Global;
use xsmp_messages::{XsmpMessage, decode_xsmp};

const HEADER_LEN: usize = 8;

/// What a frame is to the client.
#[derive(Drop)]
pub enum Received {
    Ice(IceMessage),
    /// A message under the manager's opcode for XSMP.
    Xsmp(XsmpMessage),
    /// A message of XSMP under an opcode that nobody has.
    Stray,
    /// No message is spelled so.
    Unspelled,
}

/// Whether a frame has the units that its header states.
fn is_whole(endian: Endian, frame: &[u8]) -> bool
    requires { 8 ≤ length frame.now }
    ensures { result ≡ is_whole_frame (record { endian = endian; bytes = frame.now }) }
{
    let (_, units) = frame.split_at(4);
    HEADER_LEN + 8 * read_card32(endian, units) as usize == frame.len()
}

/// A frame of major opcode 0.
fn receive_ice(alloc: Global, endian: Endian, frame: &[u8]) -> Result<Received, NoMemory>
    requires whole { IsFrame endian frame.now }
    requires opcode { slice_index frame.now 0 ≡ 0 }
    ensures { IfOk result (λ received. received ≡ ice_received (ice_at endian frame.now)) }
{
    match decode_ice(alloc, endian, frame) {
        Ok(message) => Ok(Received::Ice(message)),
        Err(DecodeRefusal::NoMemory) => Err(NoMemory),
        Err(_) => Ok(Received::Unspelled),
    }
}

/// A frame of the manager's opcode.
fn receive_xsmp(alloc: Global, endian: Endian, frame: &[u8]) -> Result<Received, NoMemory>
    requires { IsFrame endian frame.now }
    ensures { IfOk result (λ received. received ≡ xsmp_received (xsmp_at endian frame.now)) }
{
    match decode_xsmp(alloc, endian, frame) {
        Ok(message) => Ok(Received::Xsmp(message)),
        Err(DecodeRefusal::NoMemory) => Err(NoMemory),
        Err(_) => Ok(Received::Unspelled),
    }
}

/// A frame of an opcode that nobody has.
fn receive_stray(alloc: Global, endian: Endian, frame: &[u8]) -> Result<Received, NoMemory>
    requires { IsFrame endian frame.now }
    ensures { IfOk result (λ received. received ≡ stray_received (xsmp_at endian frame.now)) }
{
    match decode_xsmp(alloc, endian, frame) {
        Ok(_) => Ok(Received::Stray),
        Err(DecodeRefusal::NoMemory) => Err(NoMemory),
        Err(_) => Ok(Received::Unspelled),
    }
}

/// Whether a major opcode is the manager's for XSMP, as far as that is known.
fn is_opcode(opcode: Option<u8>, major: u8) -> bool
    ensures { result ≡ is_opcode_of opcode major }
{
    match opcode {
        Some(opcode) => opcode == major,
        None => false,
    }
}

/// What a frame is to a client that knows this of the manager's opcode for XSMP.
pub fn receive(alloc: Global, opcode: Option<u8>, frame: Frame<'_>) -> Result<Received, NoMemory>
    requires { 8 ≤ length frame.bytes.now }
    ensures { IfOk result (λ received.
        received ≡ received_of opcode
        (record { endian = frame.entry.endian; bytes = frame.entry.bytes.now })) }
{
    if !is_whole(frame.endian, frame.bytes) {
        return Ok(Received::Unspelled);
    }
    let major = frame.bytes[0];
    if major == 0 {
        return receive_ice(alloc, frame.endian, frame.bytes);
    }
    if is_opcode(opcode, major) {
        return receive_xsmp(alloc, frame.endian, frame.bytes);
    }
    receive_stray(alloc, frame.endian, frame.bytes)
}
