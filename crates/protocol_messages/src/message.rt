ghost use Rattle.std.specs.Prelude.{◌≡◌, ◌++◌, OnOk, OnErr, IsErrOf};
ghost use Rattle.protocol_messages.specs.Messages.{spelled_under, IsTooLong};

use ice_messages::{IceMessage, encode_ice};
use ice_values::{EncodeRefusal, Endian};
use owned_lists::Octets;
use xsmp_messages::{XsmpMessage, encode_xsmp};

/// What one end of a session says to the other.
#[derive(Debug, Drop)]
pub enum Message {
    /// Under major opcode 0.
    Ice(IceMessage),
    /// Under the sender's own major opcode for XSMP.
    Xsmp(XsmpMessage),
}

/// Appends the bytes of a message (ICE, chapter 3, Message Format), if it is not too long. Numbers have
/// the least significant byte first, and `opcode` is the sender's for XSMP.
pub fn encode(opcode: u8, message: &Message, bytes: &mut Octets) -> Result<(), EncodeRefusal>
    ensures ok { OnOk result (bytes.new ≡ bytes.old ++ spelled_under opcode message.now) }
    ensures err { OnErr result (bytes.new ≡ bytes.old) }
    ensures too_long { IsErrOf result EncodeRefusal.TooLong → IsTooLong message.now }
{
    match message {
        Message::Ice(message) => encode_ice(Endian::Lsb, message, bytes),
        Message::Xsmp(message) => encode_xsmp(Endian::Lsb, opcode, message, bytes),
    }
}
