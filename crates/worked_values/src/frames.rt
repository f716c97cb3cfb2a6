ghost use Rattle.std.specs.Prelude.{◌≡◌, ◌↔◌, Err, IfOk};
ghost use Rattle.ice_values.specs.declared.numbers.Endian.TheVariants.{Lsb};
ghost use Rattle.ice_values.specs.declared.refusals.EncodeRefusal.TheVariants.{TooLong};
ghost use Rattle.xsmp_messages.specs.Messages.{IsFrame, IsTooLong, Spells};

use ice_values::{EncodeRefusal, Endian};
use owned_lists::Octets;
use std::alloc::Global;
use xsmp_messages::{XsmpMessage, encode_xsmp};

/// The usual frame of a message, little-endian and under the major opcode 1.
pub fn frame_of(alloc: Global, message: &XsmpMessage) -> Result<Octets, EncodeRefusal>
    ensures spells { IfOk result (λ frame. Spells Lsb 1 message.now frame) }
    ensures frame { IfOk result (λ frame. IsFrame Lsb frame) }
    ensures too_long { (result ≡ Err TooLong) ↔ IsTooLong Lsb message.now }
{
    let mut frame = Octets::new(alloc);
    encode_xsmp(Endian::Lsb, 1, message, &mut frame)?;
    Ok(frame)
}
