use client_engine::{Core, Cue};
use owned_lists::Octets;
use std::marker::Model;

/// A client that has no ID yet: the connection is being set up (ICE, chapter 6), or the answer to its
/// RegisterClient hasn't come.
#[derive(Drop)]
pub struct Opening {
    pub(crate) core: Core,
}

impl Model for Opening {
    ghost use Rattle.client_engine.specs.declared.engine.Core.{Core};

    ghost Value = { Core };

    ghost view = { λ opening. opening.core };
}

/// A client that has an ID. It may set, delete and ask for properties, ask for a save and close at any
/// time; `turn` tells what it may answer.
#[derive(Drop)]
pub struct Member {
    pub(crate) core: Core,
}

impl Model for Member {
    ghost use Rattle.std.specs.Prelude.{◌≡◌, true};
    ghost use Rattle.client_engine.specs.declared.engine.Core.{Core};
    ghost use Rattle.client_engine.specs.Places.{phase_at};
    ghost use Rattle.client_machine.specs.Phases.{is_registered};

    ghost Value = { Core };

    ghost view = { λ member. member.core };

    ghost invariant = { λ member. is_registered (phase_at member.core.talk.place) ≡ true };
}

/// A client that was told to die. What is left to it is to say that it closes.
#[derive(Debug, Drop)]
pub struct Dying {
    pub(crate) told: (),
}

/// What a client is.
#[derive(Drop)]
pub enum Client {
    Opening(Opening),
    Member(Member),
    Dying(Dying),
    /// It takes nothing more, and says nothing.
    Stopped,
}

/// What the bytes of a stream brought, up to the end of the first message in them.
#[derive(Drop)]
pub struct Heard {
    /// What is to be sent at once.
    pub said: Octets,
    /// What the manager told.
    pub cue: Cue,
    /// How many bytes were taken. Those behind them are for the next call.
    pub count: usize,
    /// What the client is now.
    pub client: Client,
}
