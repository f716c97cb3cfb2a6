ghost use Rattle.std.specs.Prelude.{◌≡◌, ◌++◌, OnOk, OnErr, IsErrOf};
ghost use Rattle.client_engine.specs.Messages.{spelled};
ghost use Rattle.protocol_messages.specs.Messages.{IsTooLong};

use ice_values::EncodeRefusal;
use owned_lists::Octets;
use protocol_messages::{Message, encode};

/// The client's major opcode for the messages of XSMP.
const CLIENT_OPCODE: u8 = 1;

/// Appends the bytes of what a client says. Only properties, their names and reasons to close can be
/// too long: a message has at most 65,536 bytes behind its header.
pub fn put_message(message: &Message, bytes: &mut Octets) -> Result<(), EncodeRefusal>
    ensures ok { OnOk result (bytes.new ≡ bytes.old ++ spelled message.now) }
    ensures err { OnErr result (bytes.new ≡ bytes.old) }
    ensures too_long { IsErrOf result EncodeRefusal.TooLong → IsTooLong message.now }
{
    encode(CLIENT_OPCODE, message, bytes)
}
