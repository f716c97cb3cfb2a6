ghost use Rattle.std.specs.Prelude.{◌≡◌, [], ◌∷◌};
ghost use Rattle.client_machine.specs.Saves.{IsLawful};
ghost use Rattle.client_engine.specs.Answering.{AreFew};
ghost use Rattle.client_callbacks.specs.Script.{AsksSave, AsksReasons, TellsCancelled};
ghost use Rattle.client_callbacks.specs.Doing.{Follows};

use crate::callbacks::{Cancels, Dies, Saves};
use client_machine::{SaveAnswer, SaveAsk};
use ice_cookie::Cookie;
use ice_values::{Array8, Array8List};
use owned_lists::OctetsList;
use std::marker::Model;

/// What a client joins with, and the lines that it notes as it does.
#[derive(Debug, Drop)]
pub struct Join {
    pub cookie: Cookie,
    /// The ID that the client had in an earlier session, or none.
    pub previous: Array8,
    /// How many saves the client waits for before it closes by itself.
    pub saves: u32,
    /// What happened: `id` and the ID, `saved`, `cancelled` and `died`.
    pub lines: OctetsList,
}

/// A client that leaves what it saves and why it closes to callbacks.
pub struct Joiner<S: Saves, D: Dies, C: Cancels> {
    save: S,
    die: D,
    cancelled: C,
}

impl<S: Saves, D: Dies, C: Cancels> Model for Joiner<S, D, C> {
    ghost use Rattle.client_callbacks.specs.Doing.{Callbacks};

    ghost Value = { Callbacks S D C };

    ghost view = { λ j. record { save = j.save; die = j.die; cancelled = j.cancelled } };

    ghost invariant = { λ j. S.lawful j.save × D.lawful j.die × C.lawful j.cancelled };
}

impl<S: Saves, D: Dies, C: Cancels> Joiner<S, D, C> {
    /// A client with these callbacks: `save` is asked in each save, `die` when the client is told to
    /// die, and `cancelled` is told when a save was cancelled.
    pub fn new(save: S, die: D, cancelled: C) -> Joiner<S, D, C>
        requires save { S.lawful save }
        requires die { D.lawful die }
        requires cancelled { C.lawful cancelled }
        ensures { result ≡ record { save = save; die = die; cancelled = cancelled } }
    {
        Joiner {
            save,
            die,
            cancelled,
        }
    }

    /// Hands the callbacks back.
    pub fn parts(self) -> (S, D, C)
        ensures callbacks { result ≡ (self.save, self.die, self.cancelled) }
        ensures save { S.lawful result.0 }
        ensures die { D.lawful result.1 }
        ensures cancelled { C.lawful result.2 }
    {
        let Joiner {
            save,
            die,
            cancelled,
        } = self;
        (save, die, cancelled)
    }

    /// Asks how the client saves.
    pub(crate) fn ask(&mut self, ask: SaveAsk) -> SaveAnswer
        ensures follows { Follows S.answers D.gives C.hears
            (AsksSave ask result ∷ []) self.old self.new }
        ensures lawful { IsLawful ask result }
    {
        self.save.answer(ask)
    }

    /// Asks why the client closes.
    pub(crate) fn ask_reasons(&mut self) -> Array8List
        ensures follows { Follows S.answers D.gives C.hears
            (AsksReasons result ∷ []) self.old self.new }
        ensures few { AreFew result }
    {
        self.die.reasons()
    }

    /// Tells that a save was cancelled.
    pub(crate) fn tell_cancelled(&mut self)
        ensures follows { Follows S.answers D.gives C.hears
            (TellsCancelled ∷ []) self.old self.new }
    {
        self.cancelled.hear()
    }
}
