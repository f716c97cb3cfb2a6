ghost use Rattle.std.specs.Prelude.{◌≡◌, ◌≤◌, [], length, None, unwrap_or, IfOk, IfErr};
ghost use Rattle.client_engine.specs.Places.{id_at};
ghost use Rattle.named_joiner.specs.Doing.{Replies, keeper_of, stand_of};
ghost use Rattle.named_joiner.specs.Script.{named};
ghost use Rattle.named_joiner.specs.Standing.{start_stand};

use crate::callbacks::NamedAsk;
use crate::ends::{Ending, HearFault, NamedReply};
use client_engine::Core;
use client_machine::SaveAsk;
use ice_cookie::Cookie;
use ice_values::Array8;
use owned_lists::{NoMemory, Octets};
use std::alloc::Global;
use std::mem;

/// How far a client is, and what it says.
#[derive(Drop)]
pub struct Progress {
    pub alloc: Global,
    pub core: Core,
    /// How it is spent, once it is.
    pub ending: Option<Ending>,
    /// What is to be sent.
    pub bytes: Octets,
}

impl Progress {
    /// Behind ByteOrder.
    pub fn begin(alloc: Global, cookie: Cookie, previous: Array8) -> Result<Progress, NoMemory>
        requires { length previous ≤ 512 }
        ensures stand { IfOk result (λ progress. stand_of progress ≡ start_stand cookie previous) }
        ensures bytes { IfOk result (λ progress. progress.bytes ≡ []) }
    {
        Ok(Progress {
            alloc,
            core: Core::new(alloc, cookie, previous)?,
            ending: None,
            bytes: Octets::new(alloc),
        })
    }

    /// The client's ID, or none.
    fn id(&self) -> Result<Array8, NoMemory>
        ensures { IfOk result (λ id. id ≡ unwrap_or (id_at self.now.core.talk.place) []) }
    {
        match self.core.id() {
            Some(id) => Array8::from_slice(self.alloc, id),
            None => Array8::from_slice(self.alloc, b""),
        }
    }

    /// The ask with the client's ID.
    pub fn named(&self, ask: SaveAsk) -> Result<NamedAsk, NoMemory>
        ensures { IfOk result (λ asked. asked ≡ named (keeper_of self.now) ask) }
    {
        let id = self.id()?;
        Ok(NamedAsk { id, ask })
    }

    /// What is to be sent, and the client's end.
    pub fn reply(&mut self) -> Result<NamedReply, HearFault>
        ensures replies { Replies self.old result }
        ensures stand { stand_of self.new ≡ stand_of self.old }
        ensures bytes { self.new.bytes ≡ [] }
    {
        let bytes = mem::replace(&mut self.bytes, Octets::new(self.alloc));
        match self.ending {
            None => Ok(NamedReply { bytes, end: None }),
            Some(Ending::Ended(end)) => Ok(NamedReply {
                bytes,
                end: Some(end),
            }),
            Some(Ending::Starved) => Err(HearFault::NoMemory),
        }
    }
}
