ghost use Rattle.std.specs.Prelude.{◌≡◌, ◌≤◌, ◌↔◌, ℕ, length, drop, slice_index, OnOk, IfOk, IfErr, Ok};
ghost use Rattle.ice_values.specs.Reading.{Answers, after_at, proof_data_at};
ghost use Rattle.ice_values.specs.Frames.{body_at};
ghost use Rattle.ice_messages.specs.Messages.{Spells, HasForm, HasChoice, Refused, IsFrame, IsMessage, canon};
ghost use Rattle.ice_messages.specs.Reading.{Gives, makers_at, lists_at, offer_at, protocol_at, empty_at, byte_order_at, connection_setup_at, authentication_required_at, authentication_reply_at, authentication_next_phase_at, connection_reply_at, protocol_setup_at, protocol_reply_at, ice_error_at, decode_at};

use crate::IceMessage;
use ice_values::{
    DecodeRefusal, Endian, Spelled, Text16, TextList, ValueRefusal, VersionList, decode_error,
    end_body, no_body, skip, take_many, take_proof_data, value_at,
};
use owned_lists::Octets;
use std::alloc::Global;

/// The vendor and the release.
type Makers = (Text16, Text16);

/// The names and the versions.
type Lists = (TextList, VersionList);

#[tactic(auto, unfolding(crate::specs::Reading::makers_at, ice_values::specs::Reading::pair_at))]
fn take_makers(alloc: Global, endian: Endian, bytes: &[u8]) -> Result<(Makers, &[u8]), ValueRefusal>
    ensures { Answers (λ x. (x.0, x.1.now)) result (makers_at endian bytes.now) }
{
    let (vendor, rest) = Text16::take(alloc, endian, bytes)?;
    let (release, rest) = Text16::take(alloc, endian, rest)?;
    Ok(((vendor, release), rest))
}

#[tactic(auto, unfolding(crate::specs::Reading::lists_at, ice_values::specs::Reading::pair_at))]
fn take_lists(
    alloc: Global,
    endian: Endian,
    names: u8,
    versions: u8,
    bytes: &[u8],
) -> Result<(Lists, &[u8]), ValueRefusal>
    ensures { Answers (λ x. (x.0, x.1.now)) result (lists_at endian names versions bytes.now) }
{
    let (names, rest) = take_many(alloc, endian, names.into(), bytes)?;
    let (versions, rest) = take_many(alloc, endian, versions.into(), rest)?;
    Ok(((names, versions), rest))
}

#[tactic(auto, unfolding(crate::specs::Reading::offer_at, ice_values::specs::Reading::pair_at))]
fn take_offer(
    alloc: Global,
    endian: Endian,
    names: u8,
    versions: u8,
    bytes: &[u8],
) -> Result<((Makers, Lists), &[u8]), ValueRefusal>
    ensures { Answers (λ x. (x.0, x.1.now)) result (offer_at endian names versions bytes.now) }
{
    let (makers, rest) = take_makers(alloc, endian, bytes)?;
    let (lists, rest) = take_lists(alloc, endian, names, versions, rest)?;
    Ok(((makers, lists), rest))
}

#[tactic(auto, unfolding(crate::specs::Reading::protocol_at, ice_values::specs::Reading::pair_at))]
fn take_protocol(
    alloc: Global,
    endian: Endian,
    names: u8,
    versions: u8,
    bytes: &[u8],
) -> Result<((Text16, (Makers, Lists)), &[u8]), ValueRefusal>
    ensures { Answers (λ x. (x.0, x.1.now)) result (protocol_at endian names versions bytes.now) }
{
    let (protocol, rest) = Text16::take(alloc, endian, bytes)?;
    let (offer, rest) = take_offer(alloc, endian, names, versions, rest)?;
    Ok(((protocol, offer), rest))
}

/// A body that is the data of an authentication.
#[tactic(auto, unfolding(ice_values::specs::Frames::body_at, ice_values::specs::Frames::cut))]
fn proof_body(alloc: Global, endian: Endian, frame: &[u8]) -> Result<Octets, DecodeRefusal>
    requires { 8 ≤ length frame.now }
    ensures { Gives result (body_at (proof_data_at endian) frame.now) }
{
    let (_, body) = frame.split_at(8);
    let (proof, rest) = take_proof_data(alloc, endian, body)?;
    end_body(rest)?;
    Ok(proof)
}

/// A body that is a vendor and a release.
#[tactic(auto, unfolding(ice_values::specs::Frames::body_at, ice_values::specs::Frames::cut))]
fn makers_body(alloc: Global, endian: Endian, frame: &[u8]) -> Result<Makers, DecodeRefusal>
    requires { 8 ≤ length frame.now }
    ensures { Gives result (body_at (makers_at endian) frame.now) }
{
    let (_, body) = frame.split_at(8);
    let (makers, rest) = take_makers(alloc, endian, body)?;
    end_body(rest)?;
    Ok(makers)
}

/// A body whose first 8 bytes hold numbers that are read by their places.
#[tactic(auto, unfolding(ice_values::specs::Frames::body_at, ice_values::specs::Frames::cut, ice_values::specs::Reading::after_at))]
fn offer_body(
    alloc: Global,
    endian: Endian,
    names: u8,
    versions: u8,
    frame: &[u8],
) -> Result<(Makers, Lists), DecodeRefusal>
    requires { 8 ≤ length frame.now }
    ensures exact { Gives result (body_at (after_at 8 (offer_at endian names versions)) frame.now) }
    ensures long { OnOk result (16 ≤ length frame.now) }
{
    let (_, body) = frame.split_at(8);
    let rest = skip(8, body)?;
    let (offer, rest) = take_offer(alloc, endian, names, versions, rest)?;
    end_body(rest)?;
    Ok(offer)
}

#[tactic(auto, unfolding(ice_values::specs::Frames::body_at, ice_values::specs::Frames::cut, ice_values::specs::Reading::after_at))]
fn protocol_body(
    alloc: Global,
    endian: Endian,
    frame: &[u8],
) -> Result<(Text16, (Makers, Lists)), DecodeRefusal>
    requires { 8 ≤ length frame.now }
    ensures { Gives result
        (body_at (after_at 8
        (protocol_at endian (slice_index frame.now 9) (slice_index frame.now 8))) frame.now) }
{
    let (_, body) = frame.split_at(8);
    let rest = skip(8, body)?;
    let (setup, rest) = take_protocol(alloc, endian, frame[9], frame[8], rest)?;
    end_body(rest)?;
    Ok(setup)
}

#[tactic(auto, unfolding(crate::specs::Reading::empty_at))]
fn empty(message: IceMessage, frame: &[u8]) -> Result<IceMessage, DecodeRefusal>
    requires { 8 ≤ length frame.now }
    ensures { Gives result (empty_at message frame.now) }
{
    no_body(frame)?;
    Ok(message)
}

#[tactic(auto, unfolding(crate::specs::Reading::connection_setup_at))]
fn connection_setup(
    alloc: Global,
    endian: Endian,
    frame: &[u8],
) -> Result<IceMessage, DecodeRefusal>
    requires { 8 ≤ length frame.now }
    ensures { Gives result (connection_setup_at endian frame.now) }
{
    let ((vendor, release), (names, versions)) = offer_body(
        alloc, endian, frame[3], frame[2], frame,
    )?;
    let must = value_at(frame, 8)?;
    Ok(IceMessage::ConnectionSetup {
        must,
        vendor,
        release,
        names,
        versions,
    })
}

#[tactic(auto, unfolding(crate::specs::Reading::protocol_setup_at))]
fn protocol_setup(alloc: Global, endian: Endian, frame: &[u8]) -> Result<IceMessage, DecodeRefusal>
    requires { 8 ≤ length frame.now }
    ensures { Gives result (protocol_setup_at endian frame.now) }
{
    let (protocol, ((vendor, release), (names, versions))) = protocol_body(alloc, endian, frame)?;
    let must = value_at(frame, 3)?;
    Ok(IceMessage::ProtocolSetup {
        opcode: frame[2],
        must,
        protocol,
        vendor,
        release,
        names,
        versions,
    })
}

#[tactic(auto, unfolding(crate::specs::Reading::decode_at, crate::specs::Reading::byte_order_at, crate::specs::Reading::authentication_required_at, crate::specs::Reading::authentication_reply_at, crate::specs::Reading::authentication_next_phase_at, crate::specs::Reading::connection_reply_at, crate::specs::Reading::protocol_reply_at, crate::specs::Reading::ice_error_at))]
fn by_minor(alloc: Global, endian: Endian, frame: &[u8]) -> Result<IceMessage, DecodeRefusal>
    requires { IsFrame endian frame.now }
    ensures { Gives result (decode_at endian frame.now) }
{
    match frame[1] {
        0 => Ok(IceMessage::Error(decode_error(alloc, endian, frame)?)),
        1 => {
            no_body(frame)?;
            let order = value_at(frame, 2)?;
            Ok(IceMessage::ByteOrder(order))
        }
        2 => connection_setup(alloc, endian, frame),
        3 => Ok(IceMessage::AuthenticationRequired {
            index: frame[2],
            proof: proof_body(alloc, endian, frame)?,
        }),
        4 => Ok(IceMessage::AuthenticationReply {
            proof: proof_body(alloc, endian, frame)?,
        }),
        5 => Ok(IceMessage::AuthenticationNextPhase {
            proof: proof_body(alloc, endian, frame)?,
        }),
        6 => {
            let (vendor, release) = makers_body(alloc, endian, frame)?;
            Ok(IceMessage::ConnectionReply {
                index: frame[2],
                vendor,
                release,
            })
        }
        7 => protocol_setup(alloc, endian, frame),
        8 => {
            let (vendor, release) = makers_body(alloc, endian, frame)?;
            Ok(IceMessage::ProtocolReply {
                index: frame[2],
                opcode: frame[3],
                vendor,
                release,
            })
        }
        9 => empty(IceMessage::Ping, frame),
        10 => empty(IceMessage::PingReply, frame),
        11 => empty(IceMessage::WantToClose, frame),
        12 => empty(IceMessage::NoClose, frame),
        _ => Err(DecodeRefusal::BadMinor),
    }
}

/// The message that a frame spells, in the order of the party that sent it.
pub fn decode_ice(alloc: Global, endian: Endian, frame: &[u8]) -> Result<IceMessage, DecodeRefusal>
    requires whole { IsFrame endian frame.now }
    requires opcode { slice_index frame.now 0 ≡ 0 }
    // What is decoded is spelled so.
    ensures found { IfOk result (λ message. Spells endian message frame.now) }
    // What is spelled so is decoded, unless memory is wanting.
    ensures only { (message : _) → Spells endian message frame.now → Gives result (Ok message) }
    // What encoding writes is decoded again.
    ensures again { (message : _) → IsMessage message → frame.now ≡ canon endian message →
        Gives result (Ok message) }
    // Each refusal has its cause.
    ensures refused { IfErr result (λ refusal. Refused endian frame.now refusal) }
    // The form of a message is what some choice of the enumerated bytes spells.
    ensures form { (message : _) → HasForm endian message frame.now
        ↔ HasChoice endian message frame.now }
    // The same as a function of the bytes.
    ensures exact { Gives result (decode_at endian frame.now) }
{
    by_minor(alloc, endian, frame)
}
