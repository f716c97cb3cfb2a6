ghost use Rattle.std.specs.Prelude.{◌≡◌, ◌≢◌, ◌≤◌, length, slice_index, None, OnOk, OnErr, IsErrOf};
ghost use Rattle.ice_framing.specs.Frames.{byte_limit};
ghost use Rattle.ice_values.specs.Frames.{IsFrame};
ghost use Rattle.byte_relay.specs.Respelling.{respelled, respell_fault_of, Appends};

use crate::turning::{turn_ice, turn_xsmp};
use ice_messages::{decode_ice, encode_ice};
use ice_values::{DecodeRefusal, EncodeRefusal, Endian};
use owned_lists::Octets;
use std::alloc::Global;
use thiserror::Error;
use xsmp_messages::{decode_xsmp, encode_xsmp};

/// Why a frame isn't spelled anew.
#[derive(Clone, Copy, Debug, PartialEq, Eq, Error)]
pub enum RespellFault {
    /// It spells no message.
    #[error("unspelled frame")]
    Unspelled,
    #[error("out of memory")]
    NoMemory,
}

fn fault_of(refusal: DecodeRefusal) -> RespellFault
    ensures { result ≡ respell_fault_of refusal }
{
    match refusal {
        DecodeRefusal::BadMinor => RespellFault::Unspelled,
        DecodeRefusal::BadLength => RespellFault::Unspelled,
        DecodeRefusal::BadValue { .. } => RespellFault::Unspelled,
        DecodeRefusal::NoMemory => RespellFault::NoMemory,
    }
}

fn respell_ice(
    alloc: Global,
    endian: Endian,
    frame: &[u8],
    to: Endian,
    out: &mut Octets,
) -> Result<(), RespellFault>
    requires whole { IsFrame endian frame.now }
    requires within { length frame.now ≤ byte_limit }
    requires opcode { slice_index frame.now 0 ≡ 0 }
    ensures ok { OnOk result (Appends endian to frame.now out.old out.new) }
    ensures err { OnErr result (out.new ≡ out.old) }
    ensures unspelled { IsErrOf result RespellFault.Unspelled →
        respelled endian to frame.now ≡ None }
{
    let mut message = match decode_ice(alloc, endian, frame) {
        Ok(message) => message,
        Err(refusal) => return Err(fault_of(refusal)),
    };
    turn_ice(endian, to, &mut message);
    match encode_ice(to, &message, out) {
        Ok(()) => Ok(()),
        Err(EncodeRefusal::NoMemory) => Err(RespellFault::NoMemory),
        Err(EncodeRefusal::TooLong) => unreachable!(),
    }
}

fn respell_xsmp(
    alloc: Global,
    endian: Endian,
    frame: &[u8],
    to: Endian,
    out: &mut Octets,
) -> Result<(), RespellFault>
    requires whole { IsFrame endian frame.now }
    requires within { length frame.now ≤ byte_limit }
    requires opcode { slice_index frame.now 0 ≢ 0 }
    ensures ok { OnOk result (Appends endian to frame.now out.old out.new) }
    ensures err { OnErr result (out.new ≡ out.old) }
    ensures unspelled { IsErrOf result RespellFault.Unspelled →
        respelled endian to frame.now ≡ None }
{
    let mut message = match decode_xsmp(alloc, endian, frame) {
        Ok(message) => message,
        Err(refusal) => return Err(fault_of(refusal)),
    };
    turn_xsmp(endian, to, &mut message);
    match encode_xsmp(to, frame[0], &message, out) {
        Ok(()) => Ok(()),
        Err(EncodeRefusal::NoMemory) => Err(RespellFault::NoMemory),
        Err(EncodeRefusal::TooLong) => unreachable!(),
    }
}

/// Appends a frame as it is in another order, under the same major opcode. Unspelled is one that is
/// no message's, neither of ICE, under major opcode 0, nor of XSMP, under any other.
///
/// In an Error of class BadValue the place and the number of the wrong bytes that lead its values are
/// spelled anew as well, and in those classes of ICE whose values are a STRING its length (ICE,
/// chapter 7, Error Class Encoding). Values that are too short for that pass as they came, and so do
/// the offending bytes.
pub fn respell(
    alloc: Global,
    endian: Endian,
    frame: &[u8],
    to: Endian,
    out: &mut Octets,
) -> Result<(), RespellFault>
    requires whole { IsFrame endian frame.now }
    requires within { length frame.now ≤ byte_limit }
    // What is appended is what the definition says.
    ensures ok { OnOk result (Appends endian to frame.now out.old out.new) }
    ensures err { OnErr result (out.new ≡ out.old) }
    // It is Unspelled only where the definition gives nothing, and then it isn't Ok.
    ensures unspelled { IsErrOf result RespellFault.Unspelled →
        respelled endian to frame.now ≡ None }
{
    if frame[0] == 0 {
        respell_ice(alloc, endian, frame, to, out)
    } else {
        respell_xsmp(alloc, endian, frame, to, out)
    }
}
