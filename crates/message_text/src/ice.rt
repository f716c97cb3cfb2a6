ghost use Rattle.std.specs.Prelude.{◌≡◌, ◌++◌, OnOk, IfOk};
ghost use Rattle.message_text.specs.Lines.{ice_name as name_in, ice_fields, ice_text, IsSetup, makers_text, offer_text};

use crate::fields::{put_error, put_field};
use crate::words::Writing;
use ice_messages::IceMessage;
use ice_values::{Text16, TextList, VersionList};
use owned_lists::{NoMemory, Octets};
use std::alloc::Global;

/// The name of a message.
pub fn ice_name(message: &IceMessage) -> &'static str
    ensures { result.now ≡ name_in message.now }
{
    match message {
        IceMessage::Error(_) => "Error",
        IceMessage::ByteOrder(_) => "ByteOrder",
        IceMessage::ConnectionSetup { .. } => "ConnectionSetup",
        IceMessage::AuthenticationRequired { .. } => "AuthenticationRequired",
        IceMessage::AuthenticationReply { .. } => "AuthenticationReply",
        IceMessage::AuthenticationNextPhase { .. } => "AuthenticationNextPhase",
        IceMessage::ConnectionReply { .. } => "ConnectionReply",
        IceMessage::ProtocolSetup { .. } => "ProtocolSetup",
        IceMessage::ProtocolReply { .. } => "ProtocolReply",
        IceMessage::Ping => "Ping",
        IceMessage::PingReply => "PingReply",
        IceMessage::WantToClose => "WantToClose",
        IceMessage::NoClose => "NoClose",
    }
}

/// Appends a vendor and a release.
fn put_makers(
    alloc: Global,
    writing: Writing,
    out: &mut Octets,
    vendor: &Text16,
    release: &Text16,
) -> Result<(), NoMemory>
    ensures { OnOk result (out.new ≡ out.old ++ makers_text writing vendor.now release.now) }
{
    put_field(alloc, writing, out, "vendor", vendor)?;
    put_field(alloc, writing, out, "release", release)
}

/// Appends what a party offers: its vendor and release, names and versions.
fn put_offer(
    alloc: Global,
    writing: Writing,
    out: &mut Octets,
    vendor: &Text16,
    release: &Text16,
    names: &TextList,
    versions: &VersionList,
) -> Result<(), NoMemory>
    ensures { OnOk result
        (out.new ≡ out.old ++ offer_text writing vendor.now release.now names.now versions.now) }
{
    put_makers(alloc, writing, out, vendor, release)?;
    put_field(alloc, writing, out, "names", names)?;
    put_field(alloc, writing, out, "versions", versions)
}

/// Appends the fields of a ConnectionSetup or a ProtocolSetup.
fn put_setup(
    alloc: Global,
    writing: Writing,
    out: &mut Octets,
    message: &IceMessage,
) -> Result<(), NoMemory>
    requires { IsSetup message.now }
    ensures { OnOk result (out.new ≡ out.old ++ ice_fields writing message.now) }
{
    match message {
        IceMessage::ConnectionSetup {
            must,
            vendor,
            release,
            names,
            versions,
        } => {
            put_field(alloc, writing, out, "must", must)?;
            put_offer(alloc, writing, out, vendor, release, names, versions)
        }
        IceMessage::ProtocolSetup {
            opcode,
            must,
            protocol,
            vendor,
            release,
            names,
            versions,
        } => {
            put_field(alloc, writing, out, "opcode", opcode)?;
            put_field(alloc, writing, out, "must", must)?;
            put_field(alloc, writing, out, "protocol", protocol)?;
            put_offer(alloc, writing, out, vendor, release, names, versions)
        }
        _ => unreachable!(),
    }
}

/// Appends the fields of a message.
fn put_fields(
    alloc: Global,
    writing: Writing,
    out: &mut Octets,
    message: &IceMessage,
) -> Result<(), NoMemory>
    ensures { OnOk result (out.new ≡ out.old ++ ice_fields writing message.now) }
{
    match message {
        IceMessage::Error(error) => put_error(alloc, writing, out, error),
        IceMessage::ByteOrder(order) => put_field(alloc, writing, out, "order", order),
        IceMessage::ConnectionSetup { .. } => put_setup(alloc, writing, out, message),
        IceMessage::AuthenticationRequired { index, proof } => {
            put_field(alloc, writing, out, "index", index)?;
            put_field(alloc, writing, out, "proof", proof)
        }
        IceMessage::AuthenticationReply { proof } => put_field(alloc, writing, out, "proof", proof),
        IceMessage::AuthenticationNextPhase { proof } => put_field(
            alloc, writing, out, "proof", proof,
        ),
        IceMessage::ConnectionReply {
            index,
            vendor,
            release,
        } => {
            put_field(alloc, writing, out, "index", index)?;
            put_makers(alloc, writing, out, vendor, release)
        }
        IceMessage::ProtocolSetup { .. } => put_setup(alloc, writing, out, message),
        IceMessage::ProtocolReply {
            index,
            opcode,
            vendor,
            release,
        } => {
            put_field(alloc, writing, out, "index", index)?;
            put_field(alloc, writing, out, "opcode", opcode)?;
            put_makers(alloc, writing, out, vendor, release)
        }
        IceMessage::Ping | IceMessage::PingReply | IceMessage::WantToClose | IceMessage::NoClose =>
            Ok(()),
    }
}

/// The line of a message of ICE, without a newline: its name, then a space, a key, `=` and the
/// value for each of its fields. Numbers are decimal, a BOOL is 0 or 1, an enumerated value is its
/// number, bytes are in lower-case hex or `-` for none, a version is `1.0`, a list is `[a,b]`
/// (ICE, chapter 7).
pub fn ice_line(alloc: Global, writing: Writing, message: &IceMessage) -> Result<Octets, NoMemory>
    ensures { IfOk result (λ line. line ≡ ice_text writing message.now) }
{
    let mut line = Octets::from_slice(alloc, ice_name(message).as_bytes())?;
    put_fields(alloc, writing, &mut line, message)?;
    Ok(line)
}
