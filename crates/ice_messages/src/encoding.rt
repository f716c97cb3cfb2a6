ghost use Rattle.std.specs.Prelude.{◌≡◌, ◌≢◌, ◌≤◌, ◌+◌, ◌/◌, ◌*◌, ◌++◌, [], ◌∷◌, length, slice_index, Err, OnOk, OnErr, IfSome, IfNone, ◌↔◌};
ghost use Rattle.ice_values.specs.Cells.{zeros, byte};
ghost use Rattle.ice_values.specs.Fields.{text16, texts, versions as version_cells, IsText16};
ghost use Rattle.ice_values.specs.Writing.{Extends};
ghost use Rattle.ice_values.specs.declared.numbers.Endian.{Endian as AnyEndian};
ghost use Rattle.ice_messages.specs.Messages.{IsFrame, canon, minor_of, layout, IsMessage, IsOffer, HasLongPart, IsTooLong};

use crate::IceMessage;
use crate::lengths::body_size;
use ice_values::{
    EncodeRefusal, Endian, Enumerated, Spelled, Text16, TextList, VersionList, pad, put_bytes,
    put_card16, put_card32, put_error, put_many, put_proof_data, put_zeros,
};
use owned_lists::{NoMemory, Octets};

/// The minor opcode of a message.
pub fn minor(message: &IceMessage) -> u8
    ensures { result ≡ minor_of message.now }
{
    match message {
        IceMessage::Error(_) => 0,
        IceMessage::ByteOrder(_) => 1,
        IceMessage::ConnectionSetup { .. } => 2,
        IceMessage::AuthenticationRequired { .. } => 3,
        IceMessage::AuthenticationReply { .. } => 4,
        IceMessage::AuthenticationNextPhase { .. } => 5,
        IceMessage::ConnectionReply { .. } => 6,
        IceMessage::ProtocolSetup { .. } => 7,
        IceMessage::ProtocolReply { .. } => 8,
        IceMessage::Ping => 9,
        IceMessage::PingReply => 10,
        IceMessage::WantToClose => 11,
        IceMessage::NoClose => 12,
    }
}

/// Adds the two bytes of a message's own.
fn put_own(endian: Endian, message: &IceMessage, out: &mut Octets) -> Result<(), NoMemory>
    requires { IsMessage message.now }
    ensures ok { OnOk result (out.new ≡ out.old ++ zeros (layout byte endian message.now).0) }
    ensures kept { Extends out.old out.new }
{
    match message {
        IceMessage::Error(error) => put_card16(endian, error.class, out),
        IceMessage::ByteOrder(order) => put_bytes(&[order.number(), 0], out),
        IceMessage::ConnectionSetup {
            names,
            versions,
            ..
        } => {
            let names = names.as_slice().len() as u8;
            let versions = versions.as_slice().len() as u8;
            put_bytes(&[versions, names], out)
        }
        IceMessage::AuthenticationRequired { index, .. } => put_bytes(&[*index, 0], out),
        IceMessage::ConnectionReply { index, .. } => put_bytes(&[*index, 0], out),
        IceMessage::ProtocolSetup { opcode, must, .. } => {
            put_bytes(&[*opcode, must.number()], out)
        }
        IceMessage::ProtocolReply { index, opcode, .. } => put_bytes(&[*index, *opcode], out),
        IceMessage::AuthenticationReply { .. }
        | IceMessage::AuthenticationNextPhase { .. }
        | IceMessage::Ping
        | IceMessage::PingReply
        | IceMessage::WantToClose
        | IceMessage::NoClose => put_bytes(&[0, 0], out),
    }
}

/// Adds a vendor and a release.
#[tactic(auto, using(ice_values::proofs::WriteLaws::adds_cells))]
fn put_makers(
    endian: Endian,
    vendor: &Text16,
    release: &Text16,
    out: &mut Octets,
) -> Result<(), NoMemory>
    requires { IsText16 vendor.now × IsText16 release.now }
    ensures ok { OnOk result
        (out.new ≡ out.old ++ zeros (text16 endian vendor.now ++ text16 endian release.now)) }
    ensures kept { Extends out.old out.new }
{
    vendor.put(endian, out)?;
    release.put(endian, out)
}

/// Adds what a party offers: its vendor and release, names and versions.
#[tactic(auto, using(ice_values::proofs::WriteLaws::adds_cells))]
fn put_offer(
    endian: Endian,
    vendor: &Text16,
    release: &Text16,
    names: &TextList,
    versions: &VersionList,
    out: &mut Octets,
) -> Result<(), NoMemory>
    requires { IsText16 vendor.now × IsText16 release.now × IsOffer names.now versions.now }
    ensures ok { OnOk result
        (out.new ≡ out.old ++ zeros
        (text16 endian vendor.now ++ text16 endian release.now ++ texts endian names.now
        ++ version_cells endian versions.now)) }
    ensures kept { Extends out.old out.new }
{
    vendor.put(endian, out)?;
    release.put(endian, out)?;
    put_many(endian, names.as_slice(), out)?;
    put_many(endian, versions.as_slice(), out)
}

/// Adds the name of a protocol, and what a party offers for it.
#[tactic(auto, using(ice_values::proofs::WriteLaws::adds_cells))]
fn put_protocol(
    endian: Endian,
    protocol: &Text16,
    vendor: &Text16,
    release: &Text16,
    names: &TextList,
    versions: &VersionList,
    out: &mut Octets,
) -> Result<(), NoMemory>
    requires { IsText16 protocol.now × IsText16 vendor.now × IsText16 release.now
        × IsOffer names.now versions.now }
    ensures ok { OnOk result
        (out.new ≡ out.old ++ zeros
        (text16 endian protocol.now ++ text16 endian vendor.now ++ text16 endian release.now
        ++ texts endian names.now ++ version_cells endian versions.now)) }
    ensures kept { Extends out.old out.new }
{
    protocol.put(endian, out)?;
    vendor.put(endian, out)?;
    release.put(endian, out)?;
    put_many(endian, names.as_slice(), out)?;
    put_many(endian, versions.as_slice(), out)
}

/// Adds the first 8 bytes of a ProtocolSetup's body, which begin with the counts of its lists.
fn put_counts(names: &TextList, versions: &VersionList, out: &mut Octets) -> Result<(), NoMemory>
    requires { IsOffer names.now versions.now }
    ensures ok { OnOk result
        (out.new ≡ out.old ++ (length versions.now ∷ length names.now ∷ 0 ∷ 0 ∷ 0 ∷ 0 ∷ 0 ∷ 0
        ∷ [])) }
    ensures kept { Extends out.old out.new }
{
    let names = names.as_slice().len() as u8;
    let versions = versions.as_slice().len() as u8;
    put_bytes(&[versions, names, 0, 0, 0, 0, 0, 0], out)
}

/// Adds the body of a message.
fn put_body(endian: Endian, message: &IceMessage, out: &mut Octets) -> Result<(), NoMemory>
    requires { IsMessage message.now }
    ensures ok { OnOk result (out.new ≡ out.old ++ zeros (layout byte endian message.now).1) }
    ensures kept { Extends out.old out.new }
{
    match message {
        IceMessage::Error(error) => put_error(endian, error, out),
        IceMessage::ConnectionSetup {
            must,
            vendor,
            release,
            names,
            versions,
        } => {
            put_bytes(&[must.number(), 0, 0, 0, 0, 0, 0, 0], out)?;
            put_offer(endian, vendor, release, names, versions, out)
        }
        IceMessage::AuthenticationRequired { proof, .. }
        | IceMessage::AuthenticationReply { proof }
        | IceMessage::AuthenticationNextPhase { proof } => {
            put_proof_data(endian, proof.as_slice(), out)
        }
        IceMessage::ConnectionReply {
            vendor,
            release,
            ..
        }
        | IceMessage::ProtocolReply {
            vendor,
            release,
            ..
        } => put_makers(endian, vendor, release, out),
        IceMessage::ProtocolSetup {
            protocol,
            vendor,
            release,
            names,
            versions,
            ..
        } => {
            put_counts(names, versions, out)?;
            put_protocol(endian, protocol, vendor, release, names, versions, out)
        }
        IceMessage::ByteOrder(_)
        | IceMessage::Ping
        | IceMessage::PingReply
        | IceMessage::WantToClose
        | IceMessage::NoClose => Ok(()),
    }
}

/// Adds a whole message, whose body has so many bytes.
fn put_message(
    endian: Endian,
    message: &IceMessage,
    count: usize,
    out: &mut Octets,
) -> Result<(), NoMemory>
    requires fits { IsMessage message.now }
    requires body { count ≡ length (layout byte endian message.now).1 }
    requires bound { count ≤ 65536 }
    ensures ok { OnOk result (out.new ≡ out.old ++ canon endian message.now) }
    ensures frame { OnOk result (IsFrame endian (canon endian message.now)
        × (slice_index (canon endian message.now) 0 ≡ 0)) }
    ensures kept { Extends out.old out.new }
{
    let padding = pad(count, 8);
    put_bytes(&[0, minor(message)], out)?;
    put_own(endian, message, out)?;
    put_card32(endian, ((count + padding) / 8) as u32, out)?;
    put_body(endian, message, out)?;
    put_zeros(padding, out)
}

/// Appends the spelling of a message, with zeros in unused and padding bytes.
///
/// It is TooLong where its body would pass 65,536 bytes, where it has more than 255 names or
/// versions, or where the data of an authentication has more than 65,535 bytes.
pub fn encode_ice(
    endian: Endian,
    message: &IceMessage,
    out: &mut Octets,
) -> Result<(), EncodeRefusal>
    ensures ok { OnOk result (out.new ≡ out.old ++ canon endian message.now) }
    ensures err { OnErr result (out.new ≡ out.old) }
    ensures too_long { (result ≡ Err EncodeRefusal.TooLong) ↔ IsTooLong endian message.now }
    // What is encoded has a spelling, so it is decoded again.
    ensures fits { OnOk result (IsMessage message.now) }
    // What is appended is a frame of major opcode 0.
    ensures frame { OnOk result (IsFrame endian (canon endian message.now)
        × (slice_index (canon endian message.now) 0 ≡ 0)) }
{
    let count = match body_size(message) {
        Some(count) => count,
        None => return Err(EncodeRefusal::TooLong),
    };
    let start = out.len();
    let written = put_message(endian, message, count, out);
    if written.is_err() {
        out.truncate(start);
    }
    Ok(written?)
}
