ghost use Rattle.std.specs.Prelude.{◌≡◌, IfOk, IfSome};
ghost use Rattle.client_quirks.specs.Stood.{named_by, named_alone, Names};

use crate::side::Side;
use crate::tongue::xsmp_in;
use ice_framing::WholeFrame;
use owned_lists::{NoMemory, Octets};
use std::alloc::Global;
use xsmp_messages::XsmpMessage;

/// The ID in a message with which a client registers, or is registered.
fn name_of(alloc: Global, message: &XsmpMessage) -> Result<Option<Octets>, NoMemory>
    ensures { IfOk result (λ id. id ≡ named_by message.now) }
{
    match message {
        XsmpMessage::RegisterClient { previous } => {
            Ok(Some(Octets::from_slice(alloc, previous.as_slice())?))
        }
        XsmpMessage::RegisterClientReply { id } => {
            Ok(Some(Octets::from_slice(alloc, id.as_slice())?))
        }
        _ => Ok(None),
    }
}

/// The ID in a piece of a party's that is one such message, of this minor opcode.
pub fn name_in(
    alloc: Global,
    side: &Side,
    minor: u8,
    piece: &[u8],
) -> Result<Option<Octets>, NoMemory>
    ensures is { IfOk result (λ id. id ≡ named_alone minor side.now piece.now) }
    ensures names { IfOk result (λ id. IfSome id (Names side.now piece.now)) }
{
    if !side.speech.says(minor, piece) {
        return Ok(None);
    }
    let Some(endian) = side.alone(piece) else {
        return Ok(None);
    };
    let frame = WholeFrame {
        endian,
        bytes: Octets::from_slice(alloc, piece)?,
    };
    match xsmp_in(alloc, side.speech, &frame)? {
        Some(message) => name_of(alloc, &message),
        None => Ok(None),
    }
}
