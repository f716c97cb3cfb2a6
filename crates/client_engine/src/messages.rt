ghost use Rattle.std.specs.Prelude.{◌≡◌, [], ◌∷◌, ◌++◌, IfOk, OnOk, OnErr};
ghost use Rattle.client_engine.specs.Messages.{spelled, AreShort, CanBeSaid, answer_of};
ghost use Rattle.protocol_messages.specs.Messages.{IsTooLong};

use ice_messages::IceMessage;
use ice_values::EncodeRefusal;
use owned_lists::{ListOf, NoMemory, Octets};
use protocol_messages::{Message, encode};
use std::alloc::Global;

/// The client's major opcode for the messages of XSMP.
const CLIENT_OPCODE: u8 = 1;

pub type MessageList = ListOf<Message>;

/// Appends the bytes of a message (ICE, chapter 3, Message Format), which has at most 65,536 of them
/// behind its header. Numbers have the least significant byte first.
pub fn spell(message: &Message, bytes: &mut Octets) -> Result<(), NoMemory>
    requires short { ¬ (IsTooLong message.now) }
    ensures ok { OnOk result (bytes.new ≡ bytes.old ++ spelled message.now) }
    ensures err { OnErr result (bytes.new ≡ bytes.old) }
{
    match encode(CLIENT_OPCODE, message, bytes) {
        Ok(()) => Ok(()),
        Err(EncodeRefusal::NoMemory) => Err(NoMemory),
        Err(EncodeRefusal::TooLong) => unreachable!(),
    }
}

/// A list of one message.
pub(crate) fn one(alloc: Global, message: Message) -> Result<MessageList, NoMemory>
    ensures { IfOk result (λ said. said ≡ message ∷ []) }
{
    let mut said = MessageList::new(alloc);
    said.push(message)?;
    Ok(said)
}

/// An answer of ICE, if there is one.
pub(crate) fn answers(alloc: Global, answer: Option<IceMessage>) -> Result<MessageList, NoMemory>
    requires { CanBeSaid answer }
    ensures said { IfOk result (λ said. said ≡ answer_of answer) }
    ensures short { IfOk result AreShort }
{
    match answer {
        Some(message) => one(alloc, Message::Ice(message)),
        None => Ok(MessageList::new(alloc)),
    }
}
