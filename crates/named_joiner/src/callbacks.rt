ghost use Rattle.std.specs.Prelude.{ℕ, List, Option, Some, IfSome};
ghost use Rattle.client_machine.specs.Saves.{IsLawful};
ghost use Rattle.client_machine.specs.declared.saves.SaveAnswer.{SaveAnswer};
ghost use Rattle.client_engine.specs.Answering.{AreFew};
ghost use Rattle.named_joiner.specs.declared.callbacks.NamedAsk.{NamedAsk};

use client_machine::{SaveAnswer, SaveAsk};
use ice_values::{Array8, Array8List};

/// What a client is asked in a save, and the ID that its manager gave it.
#[derive(Debug, Drop)]
pub struct NamedAsk {
    pub id: Array8,
    pub ask: SaveAsk,
}

/// A closure as a callback, one that saves or one that says why a client closes.
#[derive(Drop)]
pub struct ByCall<F> {
    pub call: F,
}

/// What saves a client's state under the client's ID. None where it wanted for memory. A closure is one
/// where it may be called on every NamedAsk and gives lawful answers alone: at most 128 properties of
/// at most 16,384 bytes, as XSMP spells them, and a step that has its place at the stage (XSMP,
/// chapter 7).
pub trait NamedSaves {
    /// That it may be called, now and after each call.
    ghost lawful: { Self → Type 0 };
    /// That a call gives this answer and leaves it so.
    ghost answers: { Self → NamedAsk → Option SaveAnswer → Self → Type 0 };

    /// How the client goes on in a save.
    fn answer(&mut self, ask: NamedAsk) -> Option<SaveAnswer>
        requires { lawful self.old }
        ensures lawful { lawful self.new }
        ensures answer { IfSome result (IsLawful ask.ask) }
        ensures step { answers self.old ask result self.new };
}

impl<F: FnMut(NamedAsk) -> Option<SaveAnswer>> NamedSaves for ByCall<F> {
    ghost lawful = { λ c. F.IsAlwaysCallable c.call
        × ((g : F) (ask : NamedAsk) (answer : Option SaveAnswer) (h : F) → F.step g ask answer h →
        IfSome answer (IsLawful ask.ask)) };

    ghost answers = { λ c ask answer d. F.step c.call ask answer d.call };

    fn answer(&mut self, ask: NamedAsk) -> Option<SaveAnswer> {
        (self.call)(ask)
    }
}

/// What says why a client closes when it is told to die (XSMP, chapter 7: ConnectionClosed). None where
/// it wanted for memory. A closure is one where it may always be called and gives at most 16 reasons of
/// at most 1,024 bytes.
pub trait NamedDies {
    ghost lawful: { Self → Type 0 };

    ghost gives: { Self → Option (List (List ℕ)) → Self → Type 0 };

    /// The reasons, which the manager may show.
    fn reasons(&mut self) -> Option<Array8List>
        requires { lawful self.old }
        ensures lawful { lawful self.new }
        ensures few { IfSome result AreFew }
        ensures step { gives self.old result self.new };
}

impl<F: FnMut() -> Option<Array8List>> NamedDies for ByCall<F> {
    ghost lawful = { λ c. F.IsAlwaysCallable c.call
        × ((g : F) (reasons : Option (List (List ℕ))) (h : F) → F.step g reasons h →
        IfSome reasons AreFew) };

    ghost gives = { λ c reasons d. F.step c.call reasons d.call };

    fn reasons(&mut self) -> Option<Array8List> {
        (self.call)()
    }
}
