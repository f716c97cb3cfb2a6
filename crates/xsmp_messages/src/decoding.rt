ghost use Rattle.std.specs.Prelude.{◌≡◌, ◌≤◌, ◌↔◌, ℕ, length, slice_index, OnOk, IfOk, IfErr, Ok};
ghost use Rattle.ice_values.specs.Reading.{after_at, nothing_at};
ghost use Rattle.ice_values.specs.Properties.{array8_at, array8_list_at, property_list_at};
ghost use Rattle.ice_values.specs.Frames.{body_at, bool_meaning};
ghost use Rattle.ice_values.specs.Saves.{dialog_meaning};
ghost use Rattle.xsmp_messages.specs.Messages.{Spells, HasForm, HasChoice, Refused, IsFrame, IsMessage, canon};
ghost use Rattle.xsmp_messages.specs.Reading.{Gives, valued_at, empty_at, flagged_at, save_yourself_at, save_yourself_request_at, xsmp_error_at, decode_at};
ghost use Rattle.xsmp_messages.specs.declared.message.XsmpMessage.TheVariants.{RegisterClient, RegisterClientReply, InteractRequest, InteractDone, SaveYourselfDone, ConnectionClosed, SetProperties, DeleteProperties, GetPropertiesReply};

use crate::XsmpMessage;
use ice_values::{
    DecodeRefusal, Endian, body, decode_error, end_body, no_body, pass_bytes, value_at,
};
use std::alloc::Global;

/// A body of 8 bytes that are read by their places. This takes no memory.
#[tactic(auto, unfolding(ice_values::specs::Frames::body_at, ice_values::specs::Frames::cut, ice_values::specs::Reading::after_at, ice_values::specs::Reading::nothing_at))]
pub(crate) fn unit_body(frame: &[u8]) -> Result<(), DecodeRefusal>
    requires { 8 ≤ length frame.now }
    ensures gives { Gives result (body_at (after_at 8 nothing_at) frame.now) }
    ensures exact { result ≡ body_at (after_at 8 nothing_at) frame.now }
    ensures long { OnOk result (16 ≤ length frame.now) }
{
    let (_, body) = frame.split_at(8);
    match pass_bytes(8, body) {
        Some(rest) => end_body(rest),
        None => Err(DecodeRefusal::BadLength),
    }
}

#[tactic(auto, unfolding(crate::specs::Reading::save_yourself_at))]
fn save_yourself(frame: &[u8]) -> Result<XsmpMessage, DecodeRefusal>
    requires { 8 ≤ length frame.now }
    ensures { Gives result (save_yourself_at frame.now) }
{
    unit_body(frame)?;
    let kind = value_at(frame, 8)?;
    let shutdown = value_at(frame, 9)?;
    let style = value_at(frame, 10)?;
    let fast = value_at(frame, 11)?;
    Ok(XsmpMessage::SaveYourself {
        kind,
        shutdown,
        style,
        fast,
    })
}

#[tactic(auto, unfolding(crate::specs::Reading::save_yourself_request_at))]
fn save_yourself_request(frame: &[u8]) -> Result<XsmpMessage, DecodeRefusal>
    requires { 8 ≤ length frame.now }
    ensures { Gives result (save_yourself_request_at frame.now) }
{
    unit_body(frame)?;
    let kind = value_at(frame, 8)?;
    let shutdown = value_at(frame, 9)?;
    let style = value_at(frame, 10)?;
    let fast = value_at(frame, 11)?;
    let global = value_at(frame, 12)?;
    Ok(XsmpMessage::SaveYourselfRequest {
        kind,
        shutdown,
        style,
        fast,
        global,
    })
}

#[tactic(auto, unfolding(crate::specs::Reading::valued_at))]
fn empty(message: XsmpMessage, frame: &[u8]) -> Result<XsmpMessage, DecodeRefusal>
    requires { 8 ≤ length frame.now }
    ensures { Gives result (empty_at message frame.now) }
{
    no_body(frame)?;
    Ok(message)
}

#[tactic(auto, unfolding(crate::specs::Reading::decode_at, crate::specs::Reading::valued_at, crate::specs::Reading::flagged_at, crate::specs::Reading::xsmp_error_at))]
fn by_minor(alloc: Global, endian: Endian, frame: &[u8]) -> Result<XsmpMessage, DecodeRefusal>
    requires { IsFrame endian frame.now }
    ensures { Gives result (decode_at endian frame.now) }
{
    match frame[1] {
        0 => Ok(XsmpMessage::Error(decode_error(alloc, endian, frame)?)),
        1 => Ok(XsmpMessage::RegisterClient {
            previous: body(alloc, endian, frame)?,
        }),
        2 => Ok(XsmpMessage::RegisterClientReply {
            id: body(alloc, endian, frame)?,
        }),
        3 => save_yourself(frame),
        4 => save_yourself_request(frame),
        5 => {
            no_body(frame)?;
            let dialog = value_at(frame, 2)?;
            Ok(XsmpMessage::InteractRequest { dialog })
        }
        6 => empty(XsmpMessage::Interact, frame),
        7 => {
            no_body(frame)?;
            let cancel = value_at(frame, 2)?;
            Ok(XsmpMessage::InteractDone { cancel })
        }
        8 => {
            no_body(frame)?;
            let success = value_at(frame, 2)?;
            Ok(XsmpMessage::SaveYourselfDone { success })
        }
        9 => empty(XsmpMessage::Die, frame),
        10 => empty(XsmpMessage::ShutdownCancelled, frame),
        11 => Ok(XsmpMessage::ConnectionClosed {
            reasons: body(alloc, endian, frame)?,
        }),
        12 => Ok(XsmpMessage::SetProperties {
            properties: body(alloc, endian, frame)?,
        }),
        13 => Ok(XsmpMessage::DeleteProperties {
            names: body(alloc, endian, frame)?,
        }),
        14 => empty(XsmpMessage::GetProperties, frame),
        15 => Ok(XsmpMessage::GetPropertiesReply {
            properties: body(alloc, endian, frame)?,
        }),
        16 => empty(XsmpMessage::SaveYourselfPhase2Request, frame),
        17 => empty(XsmpMessage::SaveYourselfPhase2, frame),
        18 => empty(XsmpMessage::SaveComplete, frame),
        _ => Err(DecodeRefusal::BadMinor),
    }
}

/// The message that a frame spells, in the order of the party that sent it. Its major opcode may
/// be any: the caller knows under which one the party sends XSMP.
pub fn decode_xsmp(
    alloc: Global,
    endian: Endian,
    frame: &[u8],
) -> Result<XsmpMessage, DecodeRefusal>
    requires { IsFrame endian frame.now }
    // What is decoded is spelled so, under the frame's major opcode.
    ensures found { IfOk result (λ message.
        Spells endian (slice_index frame.now 0) message frame.now) }
    // What is spelled so is decoded, unless memory is wanting.
    ensures only { (opcode : ℕ) (message : _) → Spells endian opcode message frame.now →
        Gives result (Ok message) }
    // What encoding writes is decoded again.
    ensures again { (opcode : ℕ) (message : _) → IsMessage message →
        frame.now ≡ canon endian opcode message → Gives result (Ok message) }
    // Each refusal has its cause.
    ensures refused { IfErr result (λ refusal. Refused endian frame.now refusal) }
    // The form of a message is what some choice of the enumerated bytes spells.
    ensures form { (opcode : ℕ) (message : _) → HasForm endian opcode message frame.now
        ↔ HasChoice endian opcode message frame.now }
    // The same as a function of the bytes.
    ensures exact { Gives result (decode_at endian frame.now) }
{
    by_minor(alloc, endian, frame)
}
