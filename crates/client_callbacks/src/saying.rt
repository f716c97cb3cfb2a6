ghost use Rattle.std.specs.Prelude.{◌≡◌, [], ◌∷◌, ◌++◌, codes, OnOk, OnErr};
ghost use Rattle.client_engine.specs.Messages.{AreShort};
ghost use Rattle.protocol_messages.specs.Messages.{IsTooLong};
ghost use Rattle.client_callbacks.specs.Doing.{Sends, failure_in};

use client_engine::spell;
use client_peer::Peer;
use owned_lists::{NoMemory, Octets, OctetsList};
use protocol_messages::Message;
use sm_world::Failure;
use std::alloc::Global;

/// Sends a message.
pub fn say<P: Peer>(alloc: Global, peer: &mut P, message: &Message) -> Result<(), Failure>
    requires { ¬ (IsTooLong message.now) }
    ensures { Sends (P.outside peer.old) (P.outside peer.new) (message.now ∷ [])
        (failure_in result) }
{
    let mut bytes = Octets::new(alloc);
    match spell(message, &mut bytes) {
        Ok(()) => peer.deliver(bytes.as_slice()),
        Err(NoMemory) => Err(Failure::NoMemory),
    }
}

/// Sends messages, one after the other.
pub fn say_all<P: Peer>(alloc: Global, peer: &mut P, said: &[Message]) -> Result<(), Failure>
    requires { AreShort said.now }
    ensures { Sends (P.outside peer.old) (P.outside peer.new) said.now (failure_in result) }
{
    for message in said {
        match say(alloc, peer, message) {
            Ok(()) => {}
            Err(failure) => return Err(failure),
        }
    }
    Ok(())
}

/// Adds a line to those that are noted.
pub fn note(alloc: Global, lines: &mut OctetsList, text: &[u8]) -> Result<(), NoMemory>
    ensures ok { OnOk result (lines.new ≡ lines.old ++ text.now ∷ []) }
    ensures err { OnErr result (lines.new ≡ lines.old) }
{
    lines.push(Octets::from_slice(alloc, text)?)
}

/// Adds the line of the client's ID.
pub fn note_id(alloc: Global, lines: &mut OctetsList, id: &[u8]) -> Result<(), NoMemory>
    ensures ok { OnOk result (lines.new ≡ lines.old ++ (codes "id " ++ id.now) ∷ []) }
    ensures err { OnErr result (lines.new ≡ lines.old) }
{
    let mut line = Octets::from_slice(alloc, b"id ")?;
    line.append(id)?;
    lines.push(line)
}
