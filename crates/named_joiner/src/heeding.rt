use crate::callbacks::{NamedDies, NamedSaves};
use crate::callers::Callers;
use crate::ends::{Ending, NamedEnd};
use crate::progress::Progress;
use crate::saying::say_all;
use client_engine::{Cue, Keeps, Taken, closing, spell, stage_again};
use client_machine::SaveAsk;
use owned_lists::NoMemory;

impl Progress {
    ghost use Rattle.std.specs.Prelude.{◌≡◌, ◌++◌, flat_map, map, OnOk};
    ghost use Rattle.client_engine.specs.Answering.{after_owed, changed, owed_messages};
    ghost use Rattle.client_engine.specs.Messages.{spelled};
    ghost use Rattle.client_machine.specs.Phases.{is_owing};
    ghost use Rattle.client_engine.specs.Places.{phase_at};

    /// Answers a save that was cancelled, where the client owes that.
    fn cancel(&mut self) -> Result<(), NoMemory>
        ensures bytes { OnOk result (self.new.bytes
            ≡ self.old.bytes ++ flat_map spelled (owed_messages
            (is_owing (phase_at self.old.core.talk.place)))) }
        ensures talk { OnOk result (self.new.core.talk
            ≡ changed (after_owed (is_owing (phase_at self.old.core.talk.place)))
            self.old.core.talk) }
        ensures ending { self.new.ending ≡ self.old.ending }
        ensures splitter { self.new.core.splitter ≡ self.old.core.splitter }
    {
        let said = self.core.owed(self.alloc)?;
        say_all(said.as_slice(), &mut self.bytes)
    }
}

impl<S: NamedSaves, D: NamedDies> Callers<S, D> {
    ghost use Rattle.std.specs.Prelude.{◌≡◌, Ok, Some};
    ghost use Rattle.client_engine.specs.Answering.{stage_again as stage_again_spec};
    ghost use Rattle.client_engine.specs.Speaking.{HasPlace, MayAnswer};
    ghost use Rattle.client_engine.specs.declared.place.Place.TheVariants.{Stopped};
    ghost use Rattle.client_machine.specs.Saves.{at_stage};
    ghost use Rattle.client_machine.specs.declared.saves.SaveAnswer.{SaveAnswer};
    ghost use Rattle.client_machine.specs.declared.saves.Stage.{Stage};
    ghost use Rattle.named_joiner.specs.Doing.{Answers, Tries, desk, keeper_of};
    ghost use Rattle.named_joiner.specs.Script.{cued, died, saved};

    /// Asks how the client saves, and says the answer.
    fn answer_save(&mut self, progress: &mut Progress, ask: SaveAsk) -> Result<(), NoMemory>
        requires { MayAnswer ask progress.old.core.talk.place }
        ensures answers { Answers S.answers D.gives result (desk progress.old.bytes self.old)
            (desk progress.new.bytes self.new) (keeper_of progress.old) ask
            (keeper_of progress.new) }
        ensures again { result ≡ Ok tt → (stage : Stage) → stage_again_spec ask.stage ≡ Some stage →
            MayAnswer (at_stage stage ask) progress.new.core.talk.place }
        ensures splitter { progress.new.core.splitter ≡ progress.old.core.splitter }
    {
        let named = match progress.named(ask) {
            Ok(named) => named,
            Err(NoMemory) => return Err(NoMemory),
        };
        let answer = match self.ask(named) {
            Some(answer) => answer,
            None => return Err(NoMemory),
        };
        let said = match progress.core.answer(progress.alloc, ask, answer) {
            Ok(said) => said,
            Err(NoMemory) => return Err(NoMemory),
        };
        say_all(said.as_slice(), &mut progress.bytes)
    }

    /// Answers a save. A client that has talked to the user is asked once more.
    fn save(&mut self, progress: &mut Progress, ask: SaveAsk) -> Result<(), NoMemory>
        requires { MayAnswer ask progress.old.core.talk.place }
        ensures takes { Tries S.answers D.gives result (desk progress.old.bytes self.old)
            (desk progress.new.bytes self.new) (saved (keeper_of progress.old) ask)
            (keeper_of progress.new) }
        ensures splitter { progress.new.core.splitter ≡ progress.old.core.splitter }
    {
        match self.answer_save(progress, ask) {
            Ok(()) => {}
            Err(NoMemory) => return Err(NoMemory),
        }
        match stage_again(ask.stage) {
            Some(stage) => self.answer_save(progress, SaveAsk { stage, ..ask }),
            None => Ok(()),
        }
    }

    /// Closes as the client is told to die.
    fn die(&mut self, progress: &mut Progress) -> Result<(), NoMemory>
        requires { progress.old.core.talk.place ≡ Stopped }
        ensures takes { Tries S.answers D.gives result (desk progress.old.bytes self.old)
            (desk progress.new.bytes self.new) (died (keeper_of progress.old))
            (keeper_of progress.new) }
        ensures splitter { progress.new.core.splitter ≡ progress.old.core.splitter }
    {
        let reasons = match self.ask_reasons() {
            Some(reasons) => reasons,
            None => return Err(NoMemory),
        };
        let message = closing(reasons);
        progress.ending = Some(Ending::Ended(NamedEnd::Died));
        spell(&message, &mut progress.bytes)
    }

    /// Does what a cue asks.
    fn heed(&mut self, progress: &mut Progress, cue: Cue) -> Result<(), NoMemory>
        requires { HasPlace cue progress.old.core.talk.place }
        ensures takes { Tries S.answers D.gives result (desk progress.old.bytes self.old)
            (desk progress.new.bytes self.new) (λ r.
            cued (keeper_of progress.old) r cue) (keeper_of progress.new) }
        ensures splitter { progress.new.core.splitter ≡ progress.old.core.splitter }
    {
        match cue {
            Cue::Nothing => Ok(()),
            Cue::Registered(_) => Ok(()),
            Cue::Save(ask) => self.save(progress, ask),
            Cue::Cancelled => progress.cancel(),
            Cue::Complete => Ok(()),
            Cue::Die => self.die(progress),
            Cue::Properties(_) => Ok(()),
            Cue::Refused(class) => {
                progress.ending = Some(Ending::Ended(NamedEnd::Refused { class }));
                Ok(())
            }
            Cue::Malformed(at) => {
                progress.ending = Some(Ending::Ended(NamedEnd::Malformed { at }));
                Ok(())
            }
        }
    }
}

impl<S: NamedSaves, D: NamedDies> Keeps<(), Progress> for Callers<S, D> {
    ghost use Rattle.std.specs.Prelude.{refl};
    ghost use Rattle.named_joiner.specs.Doing.{Carries, Desk as HearDesk, desk as desk_with, keeper_of};
    ghost use Rattle.named_joiner.specs.Script.{Entry as ScriptEntry, Keeper as ScriptKeeper, Replies, Says, cued as heeded, stand_at as standing_at, talk_of as talk_in, unasked as nothing_asked};

    type Fault = NoMemory;

    ghost Keeper = { ScriptKeeper };

    ghost Reply = { Replies };

    ghost Entry = { ScriptEntry };

    ghost Desk = { HearDesk S D };

    ghost core = { λ progress. progress.core };

    ghost keeper = { keeper_of };

    ghost desk = { λ callers none progress. desk_with progress.bytes callers };

    ghost unasked = { nothing_asked };

    ghost talk_of = { talk_in };

    ghost stand_at = { standing_at };

    ghost says = { Says };

    ghost cued = { heeded };

    ghost carries = { Carries S.answers D.gives };

    fn cut(progress: &mut Progress, left: &[u8]) -> Result<Option<Taken>, NoMemory> {
        match progress.core.cut(progress.alloc, left) {
            Ok(taken) => Ok(taken),
            Err(NoMemory) => Err(NoMemory),
        }
    }

    fn serve(
        &mut self,
        _none: &mut (),
        progress: &mut Progress,
        taken: Taken,
    ) -> Result<(), NoMemory> {
        match say_all(taken.said.as_slice(), &mut progress.bytes) {
            Ok(()) => self.heed(progress, taken.cue),
            Err(NoMemory) => Err(NoMemory),
        }
    }

    ghost talk_is = { λ progress. refl };

    ghost stands_there = { λ keeper. refl };
}
