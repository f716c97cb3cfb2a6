ghost use Rattle.std.specs.Prelude.{◌≡◌, ◌-◌, ◌<◌, ◌≤◌, ◌^◌, true, [], length, string_bytes, IfOk, IsTrue, OnOk};
ghost use Rattle.std.proofs.Props.{props};
ghost use Rattle.xsmp_properties.specs.Tables.{IsTableFull};
ghost use Rattle.client_machine.specs.Saves.{IsLawful};
ghost use Rattle.sm_world.specs.Disk.{has_failed, UsesDisk};
ghost use Rattle.state_saver.specs.Plans.{IsPlan, copy_path as path_of_copy};
ghost use Rattle.state_saver.specs.Saving.{Answers, CopiesTo, PassesOn, PassesOnAt, Tried, is_name as is_name_spec, shelf, trail};

use crate::files::Files;
use crate::plan::SavePlan;
use crate::words::own_set;
use client_machine::{SaveAnswer, Stage, Step};
use ice_values::PropertyList;
use named_joiner::{NamedAsk, NamedSaves};
use owned_lists::NoMemory;
use sm_world::Failure;
use std::alloc::Global;

/// How many bytes an ID can have in a command.
const NAME_LIMIT: usize = 512;

/// What saves the state of a program: each copy of its file has a number of its own.
#[derive(Drop)]
pub struct Saver<'a, F: Files> {
    alloc: Global,
    files: &'a mut F,
    plan: SavePlan,
    /// The number of the last copy.
    number: u32,
    ghost fits: { IsPlan plan } by { Prim.hlevel props },
}

/// Whether a command can name this ID: it has 1 to 512 bytes and no NUL.
fn is_name(id: &[u8]) -> bool
    ensures exact { result ≡ is_name_spec id.now }
    ensures short { IsTrue result → length id.now ≤ 512 }
{
    !id.is_empty() && id.len() <= NAME_LIMIT && !id.contains(&0)
}

/// The path of the copy with this number: that of the plan's state, a dot and the number.
pub fn copy_path(alloc: Global, plan: &SavePlan, number: u32) -> Result<String, NoMemory>
    ensures { IfOk result (λ path. string_bytes path ≡ path_of_copy plan.now.state number) }
{
    match format!(in alloc; "{}.{number}", plan.state.as_str()) {
        Ok(path) => Ok(path),
        Err(_) => Err(NoMemory),
    }
}

/// The answer of a client that only goes on so.
fn bare_answer(alloc: Global, step: Step) -> SaveAnswer
    ensures { result ≡ record { set = []; step = step } }
{
    SaveAnswer {
        set: PropertyList::new(alloc),
        step,
    }
}

impl<'a, F: Files> Saver<'a, F> {
    /// One whose first copy has the number after that of the plan. The plan's state has a path of 1 to
    /// 512 bytes, its program 1 to 16 words and its command seven words before, of 1 to 512 bytes each.
    pub fn new(alloc: Global, files: &'a mut F, plan: SavePlan) -> Saver<'a, F>
        requires { IsPlan plan }
        ensures number { result.number ≡ plan.from }
        ensures plan { result.plan ≡ plan }
        ensures files { result.files ≡ files.entry }
    {
        let number = plan.from;
        Saver {
            alloc,
            files,
            plan,
            number,
        }
    }

    /// Hands the files back.
    pub fn into_files(self) -> &'a mut F
        ensures { result ≡ self.entry.files }
    {
        let Saver {
            alloc: _alloc,
            files,
            plan: _plan,
            number: _number,
        } = self;
        files
    }

    /// The number of the last copy.
    pub fn number(&self) -> u32
        ensures { result ≡ self.now.number }
    {
        self.number
    }

    /// Publishes at this path what the state's file holds.
    fn copy_to(&mut self, path: &str) -> Result<(), Failure>
        ensures copies { CopiesTo self.old.plan.state path.now (F.outside self.old.files.now)
            (F.outside self.new.files.now) result }
        ensures passes { OnOk result (PassesOn self.old.plan.state path.now
            (trail (F.fetched self.old.files.now) (F.outside self.old.files.now))
            (trail (F.fetched self.new.files.now) (F.outside self.new.files.now))) }
        ensures uses { UsesDisk (F.outside self.old.files.now) (F.outside self.new.files.now) (has_failed result) }
        ensures number { self.new.number ≡ self.old.number }
        ensures plan { self.new.plan ≡ self.old.plan }
        ensures files { self.new.files.ghost_name ≡ self.old.files.ghost_name }
    {
        let bytes = match self.files.fetch(self.plan.state.as_str()) {
            Ok(bytes) => bytes,
            Err(failure) => return Err(failure),
        };
        self.files.publish(path, bytes.as_slice())
    }

    /// Makes the copy with the next number, and says how the program is started again with it.
    fn save_next(&mut self, id: &[u8]) -> Result<SaveAnswer, NoMemory>
        requires room { self.old.number < 2 ^ 32 - 1 }
        requires name { is_name_spec id.now ≡ true }
        requires short { length id.now ≤ 512 }
        ensures tried { Tried result self.old.plan id.now
            (shelf self.old.number (F.outside self.old.files.now))
            (shelf self.new.number (F.outside self.new.files.now)) }
        ensures passes { PassesOnAt result self.old.plan self.new.number
            (trail (F.fetched self.old.files.now) (F.outside self.old.files.now))
            (trail (F.fetched self.new.files.now) (F.outside self.new.files.now)) }
        ensures few { IfOk result (λ answer. ¬ (IsTableFull answer.set)) }
        ensures plan { self.new.plan ≡ self.old.plan }
        ensures files { self.new.files.ghost_name ≡ self.old.files.ghost_name }
    {
        self.number += 1;
        let path = match copy_path(self.alloc, &self.plan, self.number) {
            Ok(path) => path,
            Err(NoMemory) => return Err(NoMemory),
        };
        let set = match own_set(self.alloc, &self.plan, self.number, path.as_str(), id) {
            Ok(set) => set,
            Err(NoMemory) => return Err(NoMemory),
        };
        match self.copy_to(path.as_str()) {
            Ok(()) => Ok(SaveAnswer {
                set,
                step: Step::Done(true),
            }),
            Err(Failure::Failed) => Ok(bare_answer(self.alloc, Step::Done(false))),
            Err(Failure::NoMemory) => Err(NoMemory),
        }
    }

    /// Saves where the client isn't talking to the user.
    fn save_state(&mut self, id: &[u8]) -> Result<SaveAnswer, NoMemory>
        ensures tried { Tried result self.old.plan id.now
            (shelf self.old.number (F.outside self.old.files.now))
            (shelf self.new.number (F.outside self.new.files.now)) }
        ensures passes { PassesOnAt result self.old.plan self.new.number
            (trail (F.fetched self.old.files.now) (F.outside self.old.files.now))
            (trail (F.fetched self.new.files.now) (F.outside self.new.files.now)) }
        ensures few { IfOk result (λ answer. ¬ (IsTableFull answer.set)) }
        ensures plan { self.new.plan ≡ self.old.plan }
        ensures files { self.new.files.ghost_name ≡ self.old.files.ghost_name }
    {
        if self.number == u32::MAX || !is_name(id) {
            return Ok(bare_answer(self.alloc, Step::Done(false)));
        }
        self.save_next(id)
    }

    /// How the client goes on in a save. Want of memory publishes nothing; it may use up a number.
    pub fn save(&mut self, ask: NamedAsk) -> Result<SaveAnswer, NoMemory>
        ensures answers { Answers result self.old.plan ask
            (shelf self.old.number (F.outside self.old.files.now))
            (shelf self.new.number (F.outside self.new.files.now)) }
        ensures passes { PassesOnAt result self.old.plan self.new.number
            (trail (F.fetched self.old.files.now) (F.outside self.old.files.now))
            (trail (F.fetched self.new.files.now) (F.outside self.new.files.now)) }
        ensures lawful { IfOk result (IsLawful ask.ask) }
        ensures plan { self.new.plan ≡ self.old.plan }
        ensures files { self.new.files.ghost_name ≡ self.old.files.ghost_name }
    {
        match ask.ask.stage {
            Stage::First => self.save_state(ask.id.as_slice()),
            Stage::Second => self.save_state(ask.id.as_slice()),
            Stage::Talking => Ok(bare_answer(self.alloc, Step::Talked(false))),
            Stage::TalkingTwo => Ok(bare_answer(self.alloc, Step::Talked(false))),
        }
    }
}

impl<F: Files> NamedSaves for Saver<'_, F> {
    ghost use Rattle.std.specs.Prelude.{◌≡◌};
    ghost use Rattle.state_saver.specs.Saving.{AnswersSo, shelf};

    ghost lawful = { λ s. Unit {0} };

    ghost answers = { λ s ask answer t. (t.files.ghost_name ≡ s.files.ghost_name)
        × (t.plan ≡ s.plan) × AnswersSo answer s.plan ask (shelf s.number (F.outside s.files.now))
        (shelf t.number (F.outside t.files.now)) };

    fn answer(&mut self, ask: NamedAsk) -> Option<SaveAnswer> {
        match self.save(ask) {
            Ok(answer) => Some(answer),
            Err(NoMemory) => None,
        }
    }
}
