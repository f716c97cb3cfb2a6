ghost use Rattle.std.specs.Prelude.{◌≡◌, ◌++◌, flat_map, OnOk};
ghost use Rattle.client_engine.specs.Messages.{AreShort, spelled};

use client_engine::spell;
use owned_lists::{NoMemory, Octets};
use protocol_messages::Message;

/// Appends the bytes of these messages.
pub fn say_all(said: &[Message], bytes: &mut Octets) -> Result<(), NoMemory>
    requires { AreShort said.now }
    ensures { OnOk result (bytes.new ≡ bytes.old ++ flat_map spelled said.now) }
{
    for message in said {
        spell(message, bytes)?;
    }
    Ok(())
}
