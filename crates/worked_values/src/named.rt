ghost use Rattle.std.specs.Prelude.{IsTrue};
ghost use Rattle.client_machine.specs.Saves.{first_step as is_first_step, second_step as is_second_step, talking_step as is_talking_step};

use client_machine::{SaveAnswer, SaveAsk, Stage, Step};
use ice_values::{Array8List, Dialog, PropertyList, SaveStyle};
use named_joiner::{NamedAsk, NamedDies, NamedSaves};
use std::alloc::Global;

/// What saves a client that has this ID, by setting nothing. Under another ID it wants for memory.
#[derive(Drop)]
pub struct Steady<'a> {
    pub alloc: Global,
    pub id: &'a [u8],
}

impl NamedSaves for Steady<'_> {
    ghost lawful = { λ s. Unit {0} };

    ghost answers = { λ s ask answer t. Unit {0} };

    fn answer(&mut self, ask: NamedAsk) -> Option<SaveAnswer> {
        if ask.id.as_slice() != self.id {
            return None;
        }
        let step = match ask.ask.stage {
            Stage::First => Step::Done(true),
            Stage::Second => Step::Done(true),
            Stage::Talking => Step::Talked(false),
            Stage::TalkingTwo => Step::Talked(false),
        };
        Some(SaveAnswer {
            set: PropertyList::new(self.alloc),
            step,
        })
    }
}

/// What saves a client by setting nothing, and goes on as its mood has it, of which it looks at other bits
/// each time: it may talk to the user first where the save lets it, want the second phase or a shutdown
/// cancelled, or fail.
#[derive(Drop)]
pub struct Moody {
    pub alloc: Global,
    pub mood: u32,
}

/// How it goes on in the first phase.
fn first_step(ask: SaveAsk, mood: u32) -> Step
    ensures { IsTrue (is_first_step ask result) }
{
    if ask.style == SaveStyle::Any && mood % 4 == 0 {
        return Step::Interact(Dialog::Normal);
    }
    if mood % 4 == 1 {
        return Step::PhaseTwo;
    }
    Step::Done(mood % 16 > 3)
}

/// How it goes on in the second phase.
fn second_step(ask: SaveAsk, mood: u32) -> Step
    ensures { IsTrue (is_second_step ask result) }
{
    if ask.style == SaveStyle::Any && mood % 4 == 0 {
        return Step::Interact(Dialog::Normal);
    }
    Step::Done(mood % 16 > 3)
}

/// What it says of its talk.
fn talked_step(ask: SaveAsk, mood: u32) -> Step
    ensures { IsTrue (is_talking_step ask result) }
{
    if ask.shutdown {
        return Step::Talked(mood % 8 == 0);
    }
    Step::Talked(false)
}

impl NamedSaves for Moody {
    ghost lawful = { λ s. Unit {0} };

    ghost answers = { λ s ask answer t. Unit {0} };

    fn answer(&mut self, named: NamedAsk) -> Option<SaveAnswer> {
        let ask = named.ask;
        self.mood = self.mood.rotate_right(3);
        let step = match ask.stage {
            Stage::First => first_step(ask, self.mood),
            Stage::Second => second_step(ask, self.mood),
            Stage::Talking => talked_step(ask, self.mood),
            Stage::TalkingTwo => talked_step(ask, self.mood),
        };
        Some(SaveAnswer {
            set: PropertyList::new(self.alloc),
            step,
        })
    }
}

/// What gives no reasons.
#[derive(Drop)]
pub struct Silent {
    pub alloc: Global,
}

impl NamedDies for Silent {
    ghost lawful = { λ s. Unit {0} };

    ghost gives = { λ s reasons t. Unit {0} };

    fn reasons(&mut self) -> Option<Array8List> {
        Some(Array8List::new(self.alloc))
    }
}
