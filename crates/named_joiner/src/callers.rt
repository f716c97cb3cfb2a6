ghost use Rattle.std.specs.Prelude.{◌≡◌, [], ◌∷◌, IfSome};
ghost use Rattle.client_machine.specs.Saves.{IsLawful};
ghost use Rattle.client_engine.specs.Answering.{AreFew};
ghost use Rattle.named_joiner.specs.Doing.{Follows};
ghost use Rattle.named_joiner.specs.Script.{AsksSave, AsksReasons};

use crate::callbacks::{NamedAsk, NamedDies, NamedSaves};
use client_machine::SaveAnswer;
use ice_values::Array8List;
use std::marker::Model;

/// The callbacks of a client.
#[derive(Drop)]
pub struct Callers<S: NamedSaves, D: NamedDies> {
    save: S,
    die: D,
}

impl<S: NamedSaves, D: NamedDies> Model for Callers<S, D> {
    ghost use Rattle.named_joiner.specs.Script.{Callbacks};

    ghost Value = { Callbacks S D };

    ghost view = { λ c. record { save = c.save; die = c.die } };

    ghost invariant = { λ c. S.lawful c.save × D.lawful c.die };
}

impl<S: NamedSaves, D: NamedDies> Callers<S, D> {
    pub fn new(save: S, die: D) -> Callers<S, D>
        requires save { S.lawful save }
        requires die { D.lawful die }
        ensures { result ≡ record { save = save; die = die } }
    {
        Callers { save, die }
    }

    pub fn parts(self) -> (S, D)
        ensures callbacks { result ≡ (self.save, self.die) }
        ensures save { S.lawful result.0 }
        ensures die { D.lawful result.1 }
    {
        let Callers { save, die } = self;
        (save, die)
    }

    /// Asks how the client saves.
    pub fn ask(&mut self, ask: NamedAsk) -> Option<SaveAnswer>
        ensures follows { Follows S.answers D.gives (AsksSave ask result ∷ []) self.old self.new }
        ensures lawful { IfSome result (IsLawful ask.ask) }
    {
        self.save.answer(ask)
    }

    /// Asks why the client closes.
    pub fn ask_reasons(&mut self) -> Option<Array8List>
        ensures follows { Follows S.answers D.gives (AsksReasons result ∷ []) self.old self.new }
        ensures few { IfSome result AreFew }
    {
        self.die.reasons()
    }
}
