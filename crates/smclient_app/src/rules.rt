ghost use Rattle.std.specs.Prelude.{◌≡◌, ◌⊎◌, ◌≤◌, ◌∷◌, [], pos, length, IfOk, IfErr, IsErr};
ghost use Rattle.client_machine.specs.Saves.{IsLawful};
ghost use Rattle.client_machine.specs.declared.saves.Stage.TheVariants.{First};
ghost use Rattle.smclient_app.specs.Rules.{answer_by, gives_up, own_properties, set_by, step_by};

use client_callbacks::Saves;
use client_machine::{SaveAnswer, SaveAsk, Stage, Step};
use client_words::Choices;
use ice_values::{Array8List, Dialog, Property, PropertyList, SaveStyle, put_word};
use owned_lists::NoMemory;
use std::alloc::Global;

/// A property with this one value.
fn property(alloc: Global, name: &[u8], kind: &[u8], value: &[u8]) -> Result<Property, NoMemory>
    ensures { IfOk result (λ p.
        p ≡ record { name = name.now; kind = kind.now; values = value.now ∷ [] }) }
{
    let mut values = Array8List::new(alloc);
    put_word(alloc, &mut values, value)?;
    Property::from_slices(alloc, name, kind, values)
}

/// Which program the client is, and how it is started again.
fn own_set(alloc: Global, program: &str) -> Result<PropertyList, NoMemory>
    ensures { IfOk result (λ set. set ≡ own_properties program.now) }
{
    let mut set = PropertyList::new(alloc);
    let program = program.as_bytes();
    set.push(property(alloc, b"Program", b"ARRAY8", program)?)?;
    set.push(property(alloc, b"RestartCommand", b"LISTofARRAY8", program)?)?;
    Ok(set)
}

/// How the client goes on where it isn't talking to the user. `talked` says that it has just done so.
fn first_step(choices: &Choices<'_>, ask: SaveAsk, talked: bool) -> Step
    ensures { result ≡ step_by First choices.now talked ask }
{
    if choices.interact && ask.style == SaveStyle::Any && !talked {
        Step::Interact(Dialog::Normal)
    } else if choices.phase_two {
        Step::PhaseTwo
    } else {
        Step::Done(true)
    }
}

/// How the client goes on at this stage.
fn step(choices: &Choices<'_>, ask: SaveAsk, talked: bool) -> Step
    ensures { result ≡ step_by ask.stage choices.now talked ask }
{
    match ask.stage {
        Stage::First => first_step(choices, ask, talked),
        Stage::Second => Step::Done(true),
        Stage::Talking => Step::Talked(false),
        Stage::TalkingTwo => Step::Talked(false),
    }
}

/// What the client sets at this stage. It wants for memory at the first one alone.
fn set(
    alloc: Global,
    choices: &Choices<'_>,
    stage: Stage,
    talked: bool,
) -> Result<PropertyList, NoMemory>
    ensures set { IfOk result (λ set. set ≡ set_by stage choices.now talked) }
    ensures first { IsErr result → stage ≡ First }
{
    if stage == Stage::First && !talked {
        own_set(alloc, choices.program)
    } else {
        Ok(PropertyList::new(alloc))
    }
}

/// What answers in the saves of a client, as its words say.
#[derive(Drop)]
pub struct Saver<'a, 'w> {
    pub alloc: Global,
    pub choices: &'a Choices<'w>,
    /// Whether the last ask was whether the client has talked to the user.
    pub talked: bool,
    /// 1 where memory was wanting at some ask.
    pub missing: i32,
}

impl Saver<'_, '_> {
    /// How the client answers. Where there is no memory the answer is that it couldn't save.
    fn say(&mut self, ask: SaveAsk) -> SaveAnswer
        requires { length self.old.choices.now.program.now ≤ 512 }
        ensures lawful { IsLawful ask result }
        ensures choices { self.new.choices ≡ self.old.choices }
        ensures talked { self.new.talked ≡ self.old.talked }
        ensures says { ((result ≡ answer_by self.old.choices.now self.old.talked ask)
            × (self.new.missing ≡ self.old.missing))
            ⊎ ((result ≡ gives_up) × (self.new.missing ≡ pos 1)) }
    {
        match set(self.alloc, self.choices, ask.stage, self.talked) {
            Ok(set) => SaveAnswer {
                set,
                step: step(self.choices, ask, self.talked),
            },
            Err(NoMemory) => {
                self.missing = 1;
                SaveAnswer {
                    set: PropertyList::new(self.alloc),
                    step: Step::Done(false),
                }
            }
        }
    }
}

impl Saves for Saver<'_, '_> {
    ghost use Rattle.std.specs.Prelude.{◌≡◌, ◌≤◌, length};
    ghost use Rattle.smclient_app.specs.Rules.{Remembers};

    ghost lawful = { λ s. length s.choices.now.program.now ≤ 512 };

    ghost answers = { λ s ask answer t. (t.choices ≡ s.choices)
        × Remembers s.choices.now s.talked s.missing ask answer t.talked t.missing };

    fn answer(&mut self, ask: SaveAsk) -> SaveAnswer {
        let answer = self.say(ask);
        self.talked = ask.stage == Stage::Talking;
        answer
    }
}
