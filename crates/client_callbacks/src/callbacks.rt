ghost use Rattle.std.specs.Prelude.{ℕ, List};
ghost use Rattle.client_machine.specs.Saves.{IsLawful};
ghost use Rattle.client_machine.specs.declared.saves.SaveAsk.{SaveAsk};
ghost use Rattle.client_machine.specs.declared.saves.SaveAnswer.{SaveAnswer};
ghost use Rattle.client_engine.specs.Answering.{AreFew};

use client_machine::{SaveAnswer, SaveAsk};
use ice_values::Array8List;

/// What saves a client's state, or talks to the user about it. A closure is one where it may be called
/// on every SaveAsk and gives lawful answers alone: at most 128 properties of at most 16,384 bytes, as
/// XSMP spells them, and a step that has its place at the stage (XSMP, chapter 7).
pub trait Saves {
    /// That it may be called, now and after each call.
    ghost lawful: { Self → Type 0 };
    /// That a call gives this answer and leaves it so.
    ghost answers: { Self → SaveAsk → SaveAnswer → Self → Type 0 };

    /// How the client goes on in a save.
    fn answer(&mut self, ask: SaveAsk) -> SaveAnswer
        requires { lawful self.old }
        ensures lawful { lawful self.new }
        ensures answer { IsLawful ask result }
        ensures step { answers self.old ask result self.new };
}

impl<F: FnMut(SaveAsk) -> SaveAnswer> Saves for F {
    ghost lawful = { λ f.
        F.IsAlwaysCallable f
        × ((g : F) (ask : SaveAsk) (answer : SaveAnswer) (h : F) → F.step g ask answer h →
        IsLawful ask answer) };

    ghost answers = { λ f ask answer g. F.step f ask answer g };

    fn answer(&mut self, ask: SaveAsk) -> SaveAnswer {
        self(ask)
    }
}

/// What says why a client closes when it is told to die (XSMP, chapter 7: ConnectionClosed). A closure
/// is one where it may always be called and gives at most 16 reasons of at most 1,024 bytes.
pub trait Dies {
    ghost lawful: { Self → Type 0 };

    ghost gives: { Self → List (List ℕ) → Self → Type 0 };

    /// The reasons, which the manager may show.
    fn reasons(&mut self) -> Array8List
        requires { lawful self.old }
        ensures lawful { lawful self.new }
        ensures few { AreFew result }
        ensures step { gives self.old result self.new };
}

impl<F: FnMut() -> Array8List> Dies for F {
    ghost lawful = { λ f.
        F.IsAlwaysCallable f
        × ((g : F) (reasons : List (List ℕ)) (h : F) → F.step g reasons h → AreFew reasons) };

    ghost gives = { λ f reasons g. F.step f reasons g };

    fn reasons(&mut self) -> Array8List {
        self()
    }
}

/// What hears that a save was cancelled (XSMP, chapter 7: ShutdownCancelled). A closure is one where it
/// may always be called.
pub trait Cancels {
    ghost lawful: { Self → Type 0 };

    ghost hears: { Self → Self → Type 0 };

    /// What was saved is void.
    fn hear(&mut self)
        requires { lawful self.old }
        ensures lawful { lawful self.new }
        ensures step { hears self.old self.new };
}

impl<F: FnMut()> Cancels for F {
    ghost lawful = { λ f. F.IsAlwaysCallable f };

    ghost hears = { λ f g. F.step f tt g };

    fn hear(&mut self) {
        self()
    }
}
