ghost use Rattle.std.specs.Prelude.{◌≡◌, ◌≤◌, ◌∷◌, ◌++◌, ◌↔◌, length, Err, OnOk, OnErr};
ghost use Rattle.ice_values.specs.Cells.{zeros, free, byte, pad_len};
ghost use Rattle.ice_values.specs.Numbers.{number_bytes};
ghost use Rattle.ice_values.specs.Writing.{Extends};
ghost use Rattle.xsmp_messages.specs.Messages.{IsFrame, canon, minor_of, layout, IsMessage, IsTooLong};

use crate::XsmpMessage;
use crate::lengths::body_size;
use ice_values::{
    EncodeRefusal, Endian, Enumerated, Spelled, pad, put_bytes, put_error, put_zeros,
};
use owned_lists::{NoMemory, Octets};

/// The minor opcode of a message (XSMP, chapter 10: Messages).
pub fn minor(message: &XsmpMessage) -> u8
    ensures { result ≡ minor_of message.now }
{
    match message {
        XsmpMessage::Error(_) => 0,
        XsmpMessage::RegisterClient { .. } => 1,
        XsmpMessage::RegisterClientReply { .. } => 2,
        XsmpMessage::SaveYourself { .. } => 3,
        XsmpMessage::SaveYourselfRequest { .. } => 4,
        XsmpMessage::InteractRequest { .. } => 5,
        XsmpMessage::Interact => 6,
        XsmpMessage::InteractDone { .. } => 7,
        XsmpMessage::SaveYourselfDone { .. } => 8,
        XsmpMessage::Die => 9,
        XsmpMessage::ShutdownCancelled => 10,
        XsmpMessage::ConnectionClosed { .. } => 11,
        XsmpMessage::SetProperties { .. } => 12,
        XsmpMessage::DeleteProperties { .. } => 13,
        XsmpMessage::GetProperties => 14,
        XsmpMessage::GetPropertiesReply { .. } => 15,
        XsmpMessage::SaveYourselfPhase2Request => 16,
        XsmpMessage::SaveYourselfPhase2 => 17,
        XsmpMessage::SaveComplete => 18,
    }
}

/// The two bytes of a CARD16.
fn card16_bytes(endian: Endian, number: u16) -> [u8; 2]
    ensures { result ≡ number_bytes endian 2 number }
{
    match endian {
        Endian::Lsb => number.to_le_bytes(),
        Endian::Msb => number.to_be_bytes(),
    }
}

/// The four bytes of a CARD32.
fn card32_bytes(endian: Endian, number: u32) -> [u8; 4]
    ensures { result ≡ number_bytes endian 4 number }
{
    match endian {
        Endian::Lsb => number.to_le_bytes(),
        Endian::Msb => number.to_be_bytes(),
    }
}

/// The two bytes of a message's own.
fn own_bytes(endian: Endian, message: &XsmpMessage) -> [u8; 2]
    ensures { result ≡ zeros (layout byte endian message.now).0 }
{
    match message {
        XsmpMessage::Error(error) => card16_bytes(endian, error.class),
        XsmpMessage::InteractRequest { dialog } => [dialog.number(), 0],
        XsmpMessage::InteractDone { cancel } => [cancel.number(), 0],
        XsmpMessage::SaveYourselfDone { success } => [success.number(), 0],
        XsmpMessage::RegisterClient { .. }
        | XsmpMessage::RegisterClientReply { .. }
        | XsmpMessage::SaveYourself { .. }
        | XsmpMessage::SaveYourselfRequest { .. }
        | XsmpMessage::Interact
        | XsmpMessage::Die
        | XsmpMessage::ShutdownCancelled
        | XsmpMessage::ConnectionClosed { .. }
        | XsmpMessage::SetProperties { .. }
        | XsmpMessage::DeleteProperties { .. }
        | XsmpMessage::GetProperties
        | XsmpMessage::GetPropertiesReply { .. }
        | XsmpMessage::SaveYourselfPhase2Request
        | XsmpMessage::SaveYourselfPhase2
        | XsmpMessage::SaveComplete => [0, 0],
    }
}

/// The eight bytes in front of a body that takes so many units.
fn head(endian: Endian, opcode: u8, message: &XsmpMessage, units: u32) -> [u8; 8]
    ensures { result ≡ opcode ∷ minor_of message.now
        ∷ (zeros (layout byte endian message.now).0 ++ number_bytes endian 4 units) }
{
    let minor = minor(message);
    let [own, rest] = own_bytes(endian, message);
    let [first, second, third, fourth] = card32_bytes(endian, units);
    [opcode, minor, own, rest, first, second, third, fourth]
}

/// Adds the body of a message.
fn put_body(endian: Endian, message: &XsmpMessage, out: &mut Octets) -> Result<(), NoMemory>
    requires { IsMessage message.now }
    ensures ok { OnOk result (out.new ≡ out.old ++ zeros (layout byte endian message.now).1) }
    ensures kept { Extends out.old out.new }
{
    match message {
        XsmpMessage::Error(error) => put_error(endian, error, out),
        XsmpMessage::RegisterClient { previous } => previous.put(endian, out),
        XsmpMessage::RegisterClientReply { id } => id.put(endian, out),
        XsmpMessage::SaveYourself {
            kind,
            shutdown,
            style,
            fast,
        } => {
            let (kind, shutdown) = (kind.number(), shutdown.number());
            let (style, fast) = (style.number(), fast.number());
            put_bytes(&[kind, shutdown, style, fast, 0, 0, 0, 0], out)
        }
        XsmpMessage::SaveYourselfRequest {
            kind,
            shutdown,
            style,
            fast,
            global,
        } => {
            let (kind, shutdown) = (kind.number(), shutdown.number());
            let (style, fast) = (style.number(), fast.number());
            put_bytes(
                &[kind, shutdown, style, fast, global.number(), 0, 0, 0],
                out,
            )
        }
        XsmpMessage::ConnectionClosed { reasons } => reasons.put(endian, out),
        XsmpMessage::SetProperties { properties } => properties.put(endian, out),
        XsmpMessage::DeleteProperties { names } => names.put(endian, out),
        XsmpMessage::GetPropertiesReply { properties } => { properties.put(endian, out) }
        XsmpMessage::InteractRequest { .. }
        | XsmpMessage::Interact
        | XsmpMessage::InteractDone { .. }
        | XsmpMessage::SaveYourselfDone { .. }
        | XsmpMessage::Die
        | XsmpMessage::ShutdownCancelled
        | XsmpMessage::GetProperties
        | XsmpMessage::SaveYourselfPhase2Request
        | XsmpMessage::SaveYourselfPhase2
        | XsmpMessage::SaveComplete => Ok(()),
    }
}

/// Adds the body of a message, which has so many bytes, and its padding. Most messages have neither.
fn put_padded(
    endian: Endian,
    message: &XsmpMessage,
    count: usize,
    padding: usize,
    out: &mut Octets,
) -> Result<(), NoMemory>
    requires fits { IsMessage message.now }
    requires body { count ≡ length (layout byte endian message.now).1 }
    requires padding { padding ≡ pad_len count 8 }
    ensures ok { OnOk result
        (out.new ≡ out.old ++ (zeros (layout byte endian message.now).1 ++ zeros (free padding))) }
    ensures kept { Extends out.old out.new }
{
    if count == 0 {
        return Ok(());
    }
    put_body(endian, message, out)?;
    if padding == 0 {
        return Ok(());
    }
    put_zeros(padding, out)
}

/// Adds a whole message, whose body has so many bytes.
fn put_message(
    endian: Endian,
    opcode: u8,
    message: &XsmpMessage,
    count: usize,
    out: &mut Octets,
) -> Result<(), NoMemory>
    requires fits { IsMessage message.now }
    requires body { count ≡ length (layout byte endian message.now).1 }
    requires bound { count ≤ 65536 }
    ensures ok { OnOk result (out.new ≡ out.old ++ canon endian opcode message.now) }
    ensures frame { OnOk result (IsFrame endian (canon endian opcode message.now)) }
    ensures kept { Extends out.old out.new }
{
    let padding = pad(count, 8);
    let head = head(endian, opcode, message, ((count + padding) / 8) as u32);
    put_bytes(&head, out)?;
    put_padded(endian, message, count, padding, out)
}

/// Appends the spelling of a message under a major opcode, with zeros in unused and padding
/// bytes. It is TooLong where its body would pass 65,536 bytes.
pub fn encode_xsmp(
    endian: Endian,
    opcode: u8,
    message: &XsmpMessage,
    out: &mut Octets,
) -> Result<(), EncodeRefusal>
    ensures ok { OnOk result (out.new ≡ out.old ++ canon endian opcode message.now) }
    ensures err { OnErr result (out.new ≡ out.old) }
    ensures too_long { (result ≡ Err EncodeRefusal.TooLong) ↔ IsTooLong endian message.now }
    // What is encoded has a spelling, so it is decoded again.
    ensures fits { OnOk result (IsMessage message.now) }
    // What is appended is a frame.
    ensures frame { OnOk result (IsFrame endian (canon endian opcode message.now)) }
{
    let count = match body_size(message) {
        Some(count) => count,
        None => return Err(EncodeRefusal::TooLong),
    };
    let start = out.len();
    let written = put_message(endian, opcode, message, count, out);
    if written.is_err() {
        out.truncate(start);
    }
    Ok(written?)
}
