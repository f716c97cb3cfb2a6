ghost use Rattle.std.specs.Prelude.{◌≡◌, [], ◌∷◌, ◌++◌, map, OnOk};
ghost use Rattle.client_engine.specs.Messages.{AreShort};
ghost use Rattle.protocol_messages.specs.Messages.{IsTooLong};
ghost use Rattle.program_keeper.specs.Script.{sends};

use crate::acts::{KeeperAct, KeeperActs};
use client_engine::spell;
use owned_lists::{NoMemory, Octets};
use protocol_messages::Message;
use std::alloc::Global;

/// Adds that this message is to be sent.
pub fn say(alloc: Global, message: &Message, acts: &mut KeeperActs) -> Result<(), NoMemory>
    requires { ¬ (IsTooLong message.now) }
    ensures { OnOk result (acts.new ≡ acts.old ++ sends message.now ∷ []) }
{
    let mut bytes = Octets::new(alloc);
    spell(message, &mut bytes)?;
    acts.push(KeeperAct::Send(bytes))
}

/// Adds that these messages are to be sent, each by itself.
pub fn say_all(alloc: Global, said: &[Message], acts: &mut KeeperActs) -> Result<(), NoMemory>
    requires { AreShort said.now }
    ensures { OnOk result (acts.new ≡ acts.old ++ map sends said.now) }
{
    for message in said {
        say(alloc, message, acts)?;
    }
    Ok(())
}
