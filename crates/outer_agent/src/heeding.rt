use crate::acts::{AgentAct, AgentActs};
use crate::progress::Progress;
use crate::saying::{say, say_all};
use crate::words::own_properties;
use client_engine::{Cue, Keeps, Taken, closing};
use client_machine::{ClientPhase, Stage};
use ice_values::Array8List;
use owned_lists::NoMemory;
use protocol_messages::Message;
use xsmp_messages::XsmpMessage;

impl Progress {
    ghost use Rattle.std.specs.Prelude.{◌≡◌, [], ◌++◌, unwrap_or, OnOk};
    ghost use Rattle.client_engine.specs.Places.{id_at, phase_at};
    ghost use Rattle.client_engine.specs.Speaking.{HasPlace};
    ghost use Rattle.client_engine.specs.declared.place.Place.TheVariants.{Stopped};
    ghost use Rattle.client_machine.specs.Phases.{is_owing};
    ghost use Rattle.client_machine.specs.declared.saves.Stage.TheVariants.{First};
    ghost use Rattle.outer_agent.specs.Doing.{keeper_of};
    ghost use Rattle.outer_agent.specs.Script.{cancelled, died, heeded, saved};

    /// The client's ID, or none.
    fn id(&self) -> &[u8]
        ensures { result.now ≡ unwrap_or (id_at self.now.core.talk.place) [] }
    {
        match self.core.id() {
            Some(id) => id,
            None => b"",
        }
    }

    /// Says who the manager is and how it is started again, and has the session saved.
    fn save(&self, acts: &mut AgentActs) -> Result<(), NoMemory>
        ensures { OnOk result (acts.new ≡ acts.old ++ (saved (keeper_of self.now) First).line) }
    {
        let properties = own_properties(self.alloc, self.words.as_slice(), self.id())?;
        let message = Message::Xsmp(XsmpMessage::SetProperties { properties });
        say(self.alloc, &message, acts)?;
        acts.push(AgentAct::Checkpoint)
    }

    /// Answers a save that was cancelled, where the client owes that.
    fn cancel(&mut self, acts: &mut AgentActs) -> Result<(), NoMemory>
        ensures acts { OnOk result
            (acts.new ≡ acts.old ++ (cancelled (keeper_of self.old)
            (is_owing (phase_at self.old.core.talk.place))).line) }
        ensures keeper { OnOk result (keeper_of self.new
            ≡ (cancelled (keeper_of self.old)
            (is_owing (phase_at self.old.core.talk.place))).next) }
        ensures splitter { self.new.core.splitter ≡ self.old.core.splitter }
    {
        if self.core.phase() != ClientPhase::Owing {
            return Ok(());
        }
        let said = self.core.owed(self.alloc)?;
        say_all(self.alloc, said.as_slice(), acts)?;
        acts.push(AgentAct::Forget)
    }

    /// Closes as the client is told to die, and has the session shut down.
    fn die(&mut self, acts: &mut AgentActs) -> Result<(), NoMemory>
        requires { self.old.core.talk.place ≡ Stopped }
        ensures acts { OnOk result (acts.new ≡ acts.old ++ (died (keeper_of self.old)).line) }
        ensures keeper { OnOk result (keeper_of self.new ≡ (died (keeper_of self.old)).next) }
        ensures splitter { self.new.core.splitter ≡ self.old.core.splitter }
    {
        let message = closing(Array8List::new(self.alloc));
        say(self.alloc, &message, acts)?;
        acts.push(AgentAct::Shutdown)
    }

    /// Does what a cue asks.
    fn heed(&mut self, acts: &mut AgentActs, cue: Cue) -> Result<(), NoMemory>
        requires { HasPlace cue self.old.core.talk.place }
        ensures acts { OnOk result (acts.new ≡ acts.old ++ (heeded (keeper_of self.old) cue).line) }
        ensures keeper { OnOk result (keeper_of self.new ≡ (heeded (keeper_of self.old) cue).next) }
        ensures splitter { self.new.core.splitter ≡ self.old.core.splitter }
    {
        match cue {
            Cue::Nothing => Ok(()),
            Cue::Registered(_) => Ok(()),
            Cue::Save(ask) => match ask.stage {
                Stage::First => self.save(acts),
                Stage::Second => Ok(()),
                Stage::Talking => Ok(()),
                Stage::TalkingTwo => Ok(()),
            },
            Cue::Cancelled => self.cancel(acts),
            Cue::Complete => Ok(()),
            Cue::Die => self.die(acts),
            Cue::Properties(_) => Ok(()),
            Cue::Refused(_) => acts.push(AgentAct::Drop),
            Cue::Malformed(_) => acts.push(AgentAct::Drop),
        }
    }
}

/// Who keeps the client of a manager that is itself a client: what the client says and what the manager
/// is to do become acts.
#[derive(Drop)]
pub struct Nested;

impl Keeps<AgentActs, Progress> for Nested {
    ghost use Rattle.std.specs.Prelude.{List, refl};
    ghost use Rattle.outer_agent.specs.Doing.{Carries, keeper_of};
    ghost use Rattle.outer_agent.specs.Script.{Keeper as ScriptKeeper, cued as cued_so, sends, stand_at as standing_at, talk_of as talk_in};
    ghost use Rattle.outer_agent.specs.declared.acts.AgentAct.{AgentAct as Act};

    type Fault = NoMemory;

    ghost Keeper = { ScriptKeeper };

    ghost Reply = { Unit {0} };

    ghost Entry = { Act };

    ghost Desk = { List Act };

    ghost core = { λ progress. progress.core };

    ghost keeper = { keeper_of };

    ghost desk = { λ nested acts progress. acts };

    ghost unasked = { tt };

    ghost talk_of = { talk_in };

    ghost stand_at = { standing_at };

    ghost says = { sends };

    ghost cued = { cued_so };

    ghost carries = { Carries };

    fn cut(progress: &mut Progress, left: &[u8]) -> Result<Option<Taken>, NoMemory> {
        match progress.core.cut(progress.alloc, left) {
            Ok(taken) => Ok(taken),
            Err(NoMemory) => Err(NoMemory),
        }
    }

    fn serve(
        &mut self,
        acts: &mut AgentActs,
        progress: &mut Progress,
        taken: Taken,
    ) -> Result<(), NoMemory> {
        match say_all(progress.alloc, taken.said.as_slice(), acts) {
            Ok(()) => progress.heed(acts, taken.cue),
            Err(NoMemory) => Err(NoMemory),
        }
    }

    ghost talk_is = { λ progress. refl };

    ghost stands_there = { λ keeper. refl };
}
