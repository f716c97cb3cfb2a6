use crate::callbacks::{Cancels, Dies, Saves};
use crate::ends::Ending;
use crate::joiner::Joiner;
use crate::progress::Progress;
use crate::saying::{note, note_id, say, say_all};
use client_engine::{Cue, Keeps, Taken, closing, stage_again};
use client_machine::{Request, SaveAsk};
use client_peer::Peer;
use ice_values::Array8List;
use owned_lists::NoMemory;
use sm_world::Failure;

impl<S: Saves, D: Dies, C: Cancels> Joiner<S, D, C> {
    ghost use Rattle.std.specs.Prelude.{◌≡◌, ◌==◌, [], true, Ok, Some};
    ghost use Rattle.client_engine.specs.Answering.{may_ask_at, stage_again as stage_again_spec};
    ghost use Rattle.client_engine.specs.Speaking.{HasPlace, MayAnswer};
    ghost use Rattle.client_engine.specs.declared.place.Place.TheVariants.{Stopped};
    ghost use Rattle.client_machine.specs.Saves.{at_stage};
    ghost use Rattle.client_machine.specs.declared.requests.Request.TheVariants.{Close};
    ghost use Rattle.client_machine.specs.declared.saves.Stage.{Stage};
    ghost use Rattle.client_callbacks.specs.Doing.{Takes, desk, failure_in, keeper_of};
    ghost use Rattle.client_callbacks.specs.Script.{answered, cancelled, completed, cued, died, owes, saved};

    /// Asks how the client saves, and sends the answer.
    fn answer_save<P: Peer>(
        &mut self,
        peer: &mut P,
        progress: &mut Progress,
        ask: SaveAsk,
    ) -> Result<(), Failure>
        requires { MayAnswer ask progress.old.core.talk.place }
        ensures takes { Takes S.answers D.gives C.hears
            (desk (P.outside peer.old) progress.old.lines self.old)
            (desk (P.outside peer.new) progress.new.lines self.new)
            (answered (keeper_of progress.old) ask) (keeper_of progress.new) (failure_in result) }
        ensures again { result ≡ Ok tt → (stage : Stage) → stage_again_spec ask.stage ≡ Some stage →
            MayAnswer (at_stage stage ask) progress.new.core.talk.place }
        ensures splitter { progress.new.core.splitter ≡ progress.old.core.splitter }
    {
        let answer = self.ask(ask);
        let said = match progress.core.answer(progress.alloc, ask, answer) {
            Ok(said) => said,
            Err(NoMemory) => return Err(Failure::NoMemory),
        };
        say_all(progress.alloc, peer, said.as_slice())
    }

    /// Answers a save. A client that has talked to the user is asked once more.
    fn save<P: Peer>(
        &mut self,
        peer: &mut P,
        progress: &mut Progress,
        ask: SaveAsk,
    ) -> Result<(), Failure>
        requires { MayAnswer ask progress.old.core.talk.place }
        ensures takes { Takes S.answers D.gives C.hears
            (desk (P.outside peer.old) progress.old.lines self.old)
            (desk (P.outside peer.new) progress.new.lines self.new)
            (saved (keeper_of progress.old) ask) (keeper_of progress.new) (failure_in result) }
        ensures splitter { progress.new.core.splitter ≡ progress.old.core.splitter }
    {
        match self.answer_save(peer, progress, ask) {
            Ok(()) => {}
            Err(failure) => return Err(failure),
        }
        match stage_again(ask.stage) {
            Some(stage) => self.answer_save(peer, progress, SaveAsk { stage, ..ask }),
            None => Ok(()),
        }
    }

    /// Takes note that a save was cancelled, and answers it where the client owes that.
    fn cancel<P: Peer>(&mut self, peer: &mut P, progress: &mut Progress) -> Result<(), Failure>
        ensures takes { Takes S.answers D.gives C.hears
            (desk (P.outside peer.old) progress.old.lines self.old)
            (desk (P.outside peer.new) progress.new.lines self.new) (λ (none : Unit {0}).
            cancelled (keeper_of progress.old) (owes (keeper_of progress.old)))
            (keeper_of progress.new) (failure_in result) }
        ensures splitter { progress.new.core.splitter ≡ progress.old.core.splitter }
    {
        match note(progress.alloc, &mut progress.lines, b"cancelled") {
            Ok(()) => {}
            Err(NoMemory) => return Err(Failure::NoMemory),
        }
        self.tell_cancelled();
        let said = match progress.core.owed(progress.alloc) {
            Ok(said) => said,
            Err(NoMemory) => return Err(Failure::NoMemory),
        };
        say_all(progress.alloc, peer, said.as_slice())
    }

    /// Closes as the client is told to die.
    fn die<P: Peer>(&mut self, peer: &mut P, progress: &mut Progress) -> Result<(), Failure>
        requires { progress.old.core.talk.place ≡ Stopped }
        ensures takes { Takes S.answers D.gives C.hears
            (desk (P.outside peer.old) progress.old.lines self.old)
            (desk (P.outside peer.new) progress.new.lines self.new) (died (keeper_of progress.old))
            (keeper_of progress.new) (failure_in result) }
        ensures splitter { progress.new.core.splitter ≡ progress.old.core.splitter }
    {
        match note(progress.alloc, &mut progress.lines, b"died") {
            Ok(()) => {}
            Err(NoMemory) => return Err(Failure::NoMemory),
        }
        let message = closing(self.ask_reasons());
        progress.ending = Some(Ending::Died);
        say(progress.alloc, peer, &message)
    }

    /// One more save is complete.
    fn complete<P: Peer>(&mut self, peer: &mut P, progress: &mut Progress) -> Result<(), Failure>
        requires { may_ask_at (Close []) progress.old.core.talk.place ≡ true }
        ensures takes { Takes S.answers D.gives C.hears
            (desk (P.outside peer.old) progress.old.lines self.old)
            (desk (P.outside peer.new) progress.new.lines self.new) (λ (none : Unit {0}).
            completed (keeper_of progress.old) (progress.old.saves == 1)) (keeper_of progress.new)
            (failure_in result) }
        ensures splitter { progress.new.core.splitter ≡ progress.old.core.splitter }
    {
        match note(progress.alloc, &mut progress.lines, b"saved") {
            Ok(()) => {}
            Err(NoMemory) => return Err(Failure::NoMemory),
        }
        if progress.saves != 1 {
            progress.saves = progress.saves.saturating_sub(1);
            return Ok(());
        }
        let reasons = Array8List::new(progress.alloc);
        let message = match progress.core.ask(Request::Close(reasons)) {
            Ok(message) => message,
            Err(_) => unreachable!(),
        };
        progress.ending = Some(Ending::Closed);
        say(progress.alloc, peer, &message)
    }

    /// Does what a cue asks.
    fn heed<P: Peer>(
        &mut self,
        peer: &mut P,
        progress: &mut Progress,
        cue: Cue,
    ) -> Result<(), Failure>
        requires { HasPlace cue progress.old.core.talk.place }
        ensures takes { Takes S.answers D.gives C.hears
            (desk (P.outside peer.old) progress.old.lines self.old)
            (desk (P.outside peer.new) progress.new.lines self.new) (λ r.
            cued (keeper_of progress.old) r cue) (keeper_of progress.new) (failure_in result) }
        ensures splitter { progress.new.core.splitter ≡ progress.old.core.splitter }
    {
        match cue {
            Cue::Nothing => Ok(()),
            Cue::Registered(id) => {
                match note_id(progress.alloc, &mut progress.lines, id.as_slice()) {
                    Ok(()) => Ok(()),
                    Err(NoMemory) => Err(Failure::NoMemory),
                }
            }
            Cue::Save(ask) => self.save(peer, progress, ask),
            Cue::Cancelled => self.cancel(peer, progress),
            Cue::Complete => self.complete(peer, progress),
            Cue::Die => self.die(peer, progress),
            Cue::Properties(_) => Ok(()),
            Cue::Refused(class) => {
                progress.ending = Some(Ending::Refused(class));
                Ok(())
            }
            Cue::Malformed(at) => {
                progress.ending = Some(Ending::Malformed(at));
                Ok(())
            }
        }
    }
}

impl<P: Peer, S: Saves, D: Dies, C: Cancels> Keeps<P, Progress> for Joiner<S, D, C> {
    ghost use Rattle.std.specs.Prelude.{refl};
    ghost use Rattle.client_callbacks.specs.Answers.{Replies, unasked as nothing_asked};
    ghost use Rattle.client_callbacks.specs.Doing.{CarriesOut, Desk as RunDesk, desk as desk_with, keeper_of};
    ghost use Rattle.client_callbacks.specs.Script.{Entry as ScriptEntry, Keeper as ScriptKeeper, Says, cued as heeded, stand_at as standing_at, talk_of as talk_in};

    type Fault = Failure;

    ghost Keeper = { ScriptKeeper };

    ghost Reply = { Replies };

    ghost Entry = { ScriptEntry };

    ghost Desk = { RunDesk S D C };

    ghost core = { λ progress. progress.core };

    ghost keeper = { keeper_of };

    ghost desk = { λ joiner peer progress. desk_with (P.outside peer) progress.lines joiner };

    ghost unasked = { nothing_asked };

    ghost talk_of = { talk_in };

    ghost stand_at = { standing_at };

    ghost says = { Says };

    ghost cued = { heeded };

    ghost carries = { CarriesOut S.answers D.gives C.hears };

    fn cut(progress: &mut Progress, left: &[u8]) -> Result<Option<Taken>, Failure> {
        match progress.core.cut(progress.alloc, left) {
            Ok(taken) => Ok(taken),
            Err(NoMemory) => Err(Failure::NoMemory),
        }
    }

    fn serve(
        &mut self,
        peer: &mut P,
        progress: &mut Progress,
        taken: Taken,
    ) -> Result<(), Failure> {
        match say_all(progress.alloc, peer, taken.said.as_slice()) {
            Ok(()) => self.heed(peer, progress, taken.cue),
            Err(failure) => Err(failure),
        }
    }

    ghost talk_is = { λ progress. refl };

    ghost stands_there = { λ keeper. refl };
}
