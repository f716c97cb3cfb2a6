ghost use Rattle.std.specs.Prelude.{◌≡◌, ◌≤◌, [], length, IfOk};
ghost use Rattle.ice_setup.specs.Errors.{blame, opcode_values as opcode_values_spec, text_values as text_values_spec};
ghost use Rattle.ice_setup.specs.Setup.{connection_reply as connection_reply_spec, protocol_reply as protocol_reply_spec, rejection as rejection_spec, asks_cookie as asks_cookie_spec};
ghost use Rattle.ice_values.specs.declared.numbers.Endian.TheVariants.{Lsb};
ghost use Rattle.ice_messages.specs.Messages.{IsTooLong};
ghost use Rattle.ice_messages.specs.declared.message.IceMessage.TheVariants.{Error as AnError};

use crate::errors::{Offending, error_of, opcode_values, text_values};
use ice_messages::IceMessage;
use ice_values::{ErrorClass, Severity, Text16};
use owned_lists::{NoMemory, Octets};
use std::alloc::Global;

/// The manager's major opcode for the messages of XSMP.
pub const MANAGER_OPCODE: u8 = 1;

/// A text of one's own.
pub fn own_text(alloc: Global, bytes: &[u8]) -> Result<Text16, NoMemory>
    requires { length bytes.now ≤ 65535 }
    ensures { IfOk result (λ text. text ≡ bytes.now) }
{
    match Text16::from_slice(alloc, bytes) {
        Ok(text) => Ok(text),
        Err(_) => Err(NoMemory),
    }
}

/// The client is connected, with this version of those that it offered.
pub fn connection_reply(alloc: Global, version: u8) -> Result<IceMessage, NoMemory>
    ensures { IfOk result (λ reply. reply ≡ connection_reply_spec version) }
{
    Ok(IceMessage::ConnectionReply {
        index: version,
        vendor: own_text(alloc, b"smd")?,
        release: own_text(alloc, b"1.0")?,
    })
}

/// The client speaks XSMP, with this version of those that it offered.
pub fn protocol_reply(alloc: Global, version: u8) -> Result<IceMessage, NoMemory>
    ensures { IfOk result (λ reply. reply ≡ protocol_reply_spec version) }
{
    Ok(IceMessage::ProtocolReply {
        index: version,
        opcode: MANAGER_OPCODE,
        vendor: own_text(alloc, b"smd")?,
        release: own_text(alloc, b"1.0")?,
    })
}

/// The cookie is asked for, under this name of those that the client offered.
pub fn asks_cookie(alloc: Global, name: u8) -> IceMessage
    ensures { result ≡ asks_cookie_spec name }
{
    IceMessage::AuthenticationRequired {
        index: name,
        proof: Octets::new(alloc),
    }
}

/// The data were not the cookie.
pub fn rejection(alloc: Global, offending: Offending) -> Result<IceMessage, NoMemory>
    ensures { IfOk result (λ error. error ≡ rejection_spec offending) }
{
    let text = own_text(alloc, b"cookie refused")?;
    let values = text_values(alloc, &text)?;
    Ok(IceMessage::Error(error_of(
        Severity::FatalToProtocol,
        ErrorClass::AuthenticationRejected,
        offending,
        values,
    )))
}

/// An Error without values.
pub fn bare_error(
    alloc: Global,
    severity: Severity,
    class: ErrorClass,
    offending: Offending,
) -> IceMessage
    ensures { result ≡ AnError (blame severity class offending []) }
{
    IceMessage::Error(error_of(severity, class, offending, Octets::new(alloc)))
}

/// A ProtocolSetup is refused, since its opcode is taken.
pub fn opcode_error(alloc: Global, opcode: u8, offending: Offending) -> Result<IceMessage, NoMemory>
    ensures answer { IfOk result (λ error.
        error ≡ AnError (blame Severity.FatalToProtocol ErrorClass.MajorOpcodeDuplicate offending
        (opcode_values_spec opcode))) }
    ensures said { IfOk result (λ error. ¬ (IsTooLong Lsb error)) }
{
    let values = opcode_values(alloc, opcode)?;
    Ok(IceMessage::Error(error_of(
        Severity::FatalToProtocol,
        ErrorClass::MajorOpcodeDuplicate,
        offending,
        values,
    )))
}

/// A ProtocolSetup is refused by an Error that names its protocol.
pub fn protocol_error(
    alloc: Global,
    class: ErrorClass,
    protocol: &Text16,
    offending: Offending,
) -> Result<IceMessage, NoMemory>
    ensures answer { IfOk result (λ error.
        error ≡ AnError (blame Severity.FatalToProtocol class offending
        (text_values_spec protocol.now))) }
    ensures said { length (text_values_spec protocol.now) ≤ 65528 →
        IfOk result (λ error. ¬ (IsTooLong Lsb error)) }
{
    let values = text_values(alloc, protocol)?;
    Ok(IceMessage::Error(error_of(Severity::FatalToProtocol, class, offending, values)))
}
