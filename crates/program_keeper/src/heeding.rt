ghost use Rattle.std.specs.Prelude.{◌≡◌};
ghost use Rattle.program_keeper.specs.Script.{first_step as first_step_spec};

use crate::acts::{KeeperAct, KeeperActs};
use crate::progress::Progress;
use crate::saying::say_all;
use client_engine::{Cue, Keeps, Taken};
use client_machine::{SaveAnswer, SaveAsk, Stage, Step};
use ice_values::{Dialog, SaveStyle};
use owned_lists::{Duplicate, NoMemory};

/// How the program answers a save: in a logout that allows talk by asking for the token.
fn first_step(ask: SaveAsk) -> Step
    ensures { result ≡ first_step_spec ask }
{
    if ask.shutdown && ask.style == SaveStyle::Any {
        Step::Interact(Dialog::Normal)
    } else {
        Step::Done(true)
    }
}

impl Progress {
    ghost use Rattle.std.specs.Prelude.{◌≡◌, ◌++◌, OnOk, IsTrue};
    ghost use Rattle.client_machine.specs.Saves.{is_lawful_step};
    ghost use Rattle.client_engine.specs.Speaking.{HasPlace, MayAnswer};
    ghost use Rattle.program_keeper.specs.Doing.{keeper_of};
    ghost use Rattle.program_keeper.specs.Script.{answering, cancelled, completed, dying, ending, heeded, owing, restarting, saved};

    /// Answers a save by what the client sets and a step.
    fn answer(&mut self, ask: SaveAsk, step: Step, acts: &mut KeeperActs) -> Result<(), NoMemory>
        requires place { MayAnswer ask self.old.core.talk.place }
        requires lawful { IsTrue (is_lawful_step ask.stage ask step) }
        ensures acts { OnOk result (acts.new ≡ acts.old ++ (answering step (keeper_of self.old)).line) }
        ensures keeper { OnOk result (keeper_of self.new ≡ (answering step (keeper_of self.old)).next) }
        ensures splitter { self.new.core.splitter ≡ self.old.core.splitter }
    {
        let set = self.set.copy()?;
        let said = self.core.answer(self.alloc, ask, SaveAnswer { set, step })?;
        say_all(self.alloc, said.as_slice(), acts)
    }

    /// Does what a save asks.
    fn save(&mut self, ask: SaveAsk, acts: &mut KeeperActs) -> Result<(), NoMemory>
        requires { MayAnswer ask self.old.core.talk.place }
        ensures acts { OnOk result (acts.new ≡ acts.old ++ (saved ask ask.stage (keeper_of self.old)).line) }
        ensures keeper { OnOk result (keeper_of self.new ≡ (saved ask ask.stage (keeper_of self.old)).next) }
        ensures splitter { self.new.core.splitter ≡ self.old.core.splitter }
    {
        match ask.stage {
            Stage::First => {
                self.program.open();
                self.answer(ask, first_step(ask), acts)
            }
            Stage::Second => self.answer(ask, Step::Done(true), acts),
            Stage::Talking => {
                self.program.begin_talk(self.alloc);
                self.settle(acts)
            }
            Stage::TalkingTwo => {
                self.program.begin_talk(self.alloc);
                self.settle(acts)
            }
        }
    }

    /// Answers a save that was cancelled, where the client owes that.
    fn pay(&mut self, acts: &mut KeeperActs) -> Result<(), NoMemory>
        ensures acts { OnOk result (acts.new ≡ acts.old ++ (owing (keeper_of self.old)).line) }
        ensures keeper { OnOk result (keeper_of self.new ≡ (owing (keeper_of self.old)).next) }
        ensures splitter { self.new.core.splitter ≡ self.old.core.splitter }
    {
        let said = self.core.owed(self.alloc)?;
        say_all(self.alloc, said.as_slice(), acts)
    }

    /// Has the program started again, where it closed for the logout that was cancelled.
    fn restart(&mut self, acts: &mut KeeperActs) -> Result<(), NoMemory>
        ensures acts { OnOk result (acts.new ≡ acts.old ++ (restarting (keeper_of self.old)).line) }
        ensures keeper { OnOk result (keeper_of self.new ≡ (restarting (keeper_of self.old)).next) }
        ensures splitter { self.new.core.splitter ≡ self.old.core.splitter }
    {
        let is_restart = self.program.is_restart();
        self.program.cancel();
        if is_restart {
            acts.push(KeeperAct::Start)
        } else {
            Ok(())
        }
    }

    /// The save was cancelled.
    fn cancel(&mut self, acts: &mut KeeperActs) -> Result<(), NoMemory>
        ensures acts { OnOk result (acts.new ≡ acts.old ++ (cancelled (keeper_of self.old)).line) }
        ensures keeper { OnOk result (keeper_of self.new ≡ (cancelled (keeper_of self.old)).next) }
        ensures splitter { self.new.core.splitter ≡ self.old.core.splitter }
    {
        self.pay(acts)?;
        self.restart(acts)?;
        self.settle(acts)
    }

    /// Has the program ended, where it didn't close its windows by itself.
    fn end(&mut self, acts: &mut KeeperActs) -> Result<(), NoMemory>
        ensures acts { OnOk result (acts.new ≡ acts.old ++ (ending (keeper_of self.old)).line) }
        ensures keeper { OnOk result (keeper_of self.new ≡ (ending (keeper_of self.old)).next) }
        ensures splitter { self.new.core.splitter ≡ self.old.core.splitter }
    {
        let at_once = self.program.is_ended_at_once();
        self.program.die();
        if at_once {
            acts.push(KeeperAct::Term)
        } else {
            Ok(())
        }
    }

    /// The client is told to die.
    fn die(&mut self, acts: &mut KeeperActs) -> Result<(), NoMemory>
        ensures acts { OnOk result (acts.new ≡ acts.old ++ (dying (keeper_of self.old)).line) }
        ensures keeper { OnOk result (keeper_of self.new ≡ (dying (keeper_of self.old)).next) }
        ensures splitter { self.new.core.splitter ≡ self.old.core.splitter }
    {
        self.end(acts)?;
        self.settle(acts)
    }

    /// All clients have saved.
    fn complete(&mut self, acts: &mut KeeperActs) -> Result<(), NoMemory>
        ensures acts { OnOk result (acts.new ≡ acts.old ++ (completed (keeper_of self.old)).line) }
        ensures keeper { OnOk result (keeper_of self.new ≡ (completed (keeper_of self.old)).next) }
        ensures splitter { self.new.core.splitter ≡ self.old.core.splitter }
    {
        self.program.open();
        self.settle(acts)
    }

    /// Does what a cue asks.
    fn heed(&mut self, acts: &mut KeeperActs, cue: Cue) -> Result<(), NoMemory>
        requires { HasPlace cue self.old.core.talk.place }
        ensures acts { OnOk result (acts.new ≡ acts.old ++ (heeded (keeper_of self.old) cue).line) }
        ensures keeper { OnOk result (keeper_of self.new ≡ (heeded (keeper_of self.old) cue).next) }
        ensures splitter { self.new.core.splitter ≡ self.old.core.splitter }
    {
        match cue {
            Cue::Nothing => Ok(()),
            Cue::Registered(_) => self.settle(acts),
            Cue::Save(ask) => self.save(ask, acts),
            Cue::Cancelled => self.cancel(acts),
            Cue::Complete => self.complete(acts),
            Cue::Die => self.die(acts),
            Cue::Properties(_) => Ok(()),
            Cue::Refused(_) => self.shut(acts),
            Cue::Malformed(_) => self.shut(acts),
        }
    }
}

/// Who keeps the client of a program: what the client says and what is to be done become acts.
#[derive(Drop)]
pub struct Keeping;

impl Keeps<KeeperActs, Progress> for Keeping {
    ghost use Rattle.std.specs.Prelude.{List, refl};
    ghost use Rattle.program_keeper.specs.Doing.{Carries, keeper_of};
    ghost use Rattle.program_keeper.specs.Script.{Keeper as ScriptKeeper, cued as cued_so, sends, stand_at as standing_at, talk_of as talk_in};
    ghost use Rattle.program_keeper.specs.declared.acts.KeeperAct.{KeeperAct as Act};

    type Fault = NoMemory;

    ghost Keeper = { ScriptKeeper };

    ghost Reply = { Unit {0} };

    ghost Entry = { Act };

    ghost Desk = { List Act };

    ghost core = { λ progress. progress.core };

    ghost keeper = { keeper_of };

    ghost desk = { λ keeping acts progress. acts };

    ghost unasked = { tt };

    ghost talk_of = { talk_in };

    ghost stand_at = { standing_at };

    ghost says = { sends };

    ghost cued = { cued_so };

    ghost carries = { Carries };

    fn cut(progress: &mut Progress, left: &[u8]) -> Result<Option<Taken>, NoMemory> {
        match progress.core.cut(progress.alloc, left) {
            Ok(taken) => Ok(taken),
            Err(NoMemory) => Err(NoMemory),
        }
    }

    fn serve(
        &mut self,
        acts: &mut KeeperActs,
        progress: &mut Progress,
        taken: Taken,
    ) -> Result<(), NoMemory> {
        match say_all(progress.alloc, taken.said.as_slice(), acts) {
            Ok(()) => progress.heed(acts, taken.cue),
            Err(NoMemory) => Err(NoMemory),
        }
    }

    ghost talk_is = { λ progress. refl };

    ghost stands_there = { λ keeper. refl };
}
