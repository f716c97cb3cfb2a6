ghost use Rattle.std.specs.Prelude.{◌≡◌, ◌≤◌, flat_map, length, IfOk};
ghost use Rattle.ice_messages.specs.declared.message.IceMessage.TheVariants.{ByteOrder};
ghost use Rattle.ice_values.specs.declared.numbers.Endian.TheVariants.{Lsb};
ghost use Rattle.protocol_messages.specs.declared.message.Message.TheVariants.{Ice};
ghost use Rattle.client_engine.specs.Cutting.{IsNew};
ghost use Rattle.client_engine.specs.Messages.{AreShort, spelled};
ghost use Rattle.session_client.specs.Hearing.{Gives, Hears, StandsAs, tells_to_die};

use crate::client::{Client, Dying, Heard, Member, Opening};
use client_engine::{Core, Cue, Taken, greeting, spell};
use client_machine::ClientPhase;
use ice_cookie::Cookie;
use ice_values::Array8;
use owned_lists::{NoMemory, Octets};
use protocol_messages::Message;
use std::alloc::Global;

/// Whether the client is told to die.
fn is_die(cue: &Cue) -> bool
    ensures { result ≡ tells_to_die cue.now }
{
    matches!(cue, Cue::Die)
}

/// What a client is that stands so, behind a cue that told it to die or didn't.
fn client_of(core: Core, dies: bool) -> Client
    ensures { StandsAs core dies result }
{
    match core.phase() {
        ClientPhase::Registering => Client::Opening(Opening { core }),
        ClientPhase::Dead => {
            if dies {
                Client::Dying(Dying { told: () })
            } else {
                Client::Stopped
            }
        }
        _ => Client::Member(Member { core }),
    }
}

/// The bytes of these messages.
fn bytes_of(alloc: Global, said: &[Message]) -> Result<Octets, NoMemory>
    requires { AreShort said.now }
    ensures { IfOk result (λ bytes. bytes ≡ flat_map spelled said.now) }
{
    let mut bytes = Octets::new(alloc);
    for message in said {
        spell(message, &mut bytes)?;
    }
    Ok(bytes)
}

/// What a part of the stream brought.
fn heard_of(alloc: Global, core: Core, taken: Taken) -> Result<Heard, NoMemory>
    requires { AreShort taken.said }
    ensures gives { IfOk result (λ heard. Gives taken heard) }
    ensures client { IfOk result (λ heard.
        StandsAs core (tells_to_die heard.cue) heard.client) }
{
    let said = bytes_of(alloc, taken.said.as_slice())?;
    let client = client_of(core, is_die(&taken.cue));
    Ok(Heard {
        said,
        cue: taken.cue,
        count: taken.count,
        client,
    })
}

/// Takes bytes up to the end of the first message.
fn hear(alloc: Global, core: Core, left: &[u8]) -> Result<Heard, NoMemory>
    ensures { IfOk result (Hears core left.now) }
{
    let mut core = core;
    let taken = core.cut(alloc, left)?;
    match taken {
        Some(taken) => heard_of(alloc, core, taken),
        None => Ok(Heard {
            said: Octets::new(alloc),
            cue: Cue::Nothing,
            count: left.len(),
            client: client_of(core, false),
        }),
    }
}

impl Opening {
    /// A client that will register with the ID of an earlier session, or with an empty one, and the
    /// bytes that it sends first (ICE, chapter 5: ByteOrder). It reserves the 65,544 bytes of the
    /// largest frame.
    pub fn new(
        alloc: Global,
        cookie: Cookie,
        previous: Array8,
    ) -> Result<(Opening, Octets), NoMemory>
        requires { length previous ≤ 512 }
        ensures begins { IfOk result (λ opened. IsNew cookie previous opened.0) }
        ensures says { IfOk result (λ opened. opened.1 ≡ spelled (Ice (ByteOrder Lsb))) }
    {
        let mut bytes = Octets::new(alloc);
        spell(&greeting(), &mut bytes)?;
        let core = Core::new(alloc, cookie, previous)?;
        Ok((Opening { core }, bytes))
    }

    /// Takes bytes of the manager's stream up to the end of the first message in them, or all where
    /// they end in none. Want of memory ends the client.
    pub fn hear(self, alloc: Global, left: &[u8]) -> Result<Heard, NoMemory>
        ensures { IfOk result (Hears self left.now) }
    {
        hear(alloc, self.core, left)
    }
}

impl Member {
    /// Takes bytes of the manager's stream up to the end of the first message in them, or all where
    /// they end in none. Want of memory ends the client.
    pub fn hear(self, alloc: Global, left: &[u8]) -> Result<Heard, NoMemory>
        ensures { IfOk result (Hears self left.now) }
    {
        hear(alloc, self.core, left)
    }
}
