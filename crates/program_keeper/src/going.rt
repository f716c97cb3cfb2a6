use crate::acts::{KeeperAct, KeeperActs};
use crate::program::Life;
use crate::progress::Progress;
use crate::saying::say;
use crate::talk::Move;
use client_engine::closing;
use client_machine::{Request, Step};
use ice_values::Array8List;
use owned_lists::NoMemory;

impl Progress {
    ghost use Rattle.std.specs.Prelude.{◌≡◌, [], ◌∷◌, ◌++◌, OnOk};
    ghost use Rattle.client_machine.specs.declared.requests.Request.TheVariants.{Close};
    ghost use Rattle.client_engine.specs.Answering.{closes};
    ghost use Rattle.program_keeper.specs.Doing.{keeper_of};
    ghost use Rattle.program_keeper.specs.Script.{closing as closing_so, dropping, finishing, leaving, moving, requests, says_step, sends, settled, talking};

    /// Says a step, where it has its place.
    fn say_step(&mut self, step: Step, acts: &mut KeeperActs) -> Result<(), NoMemory>
        ensures acts { OnOk result (acts.new ≡ acts.old ++ (says_step step (keeper_of self.old)).line) }
        ensures keeper { OnOk result (keeper_of self.new ≡ (says_step step (keeper_of self.old)).next) }
        ensures splitter { self.new.core.splitter ≡ self.old.core.splitter }
    {
        match self.core.ask(step.request()) {
            Ok(message) => say(self.alloc, &message, acts),
            Err(_) => Ok(()),
        }
    }

    /// Ends the talk, and says that the program has saved.
    fn finish(&mut self, cancel: bool, acts: &mut KeeperActs) -> Result<(), NoMemory>
        ensures acts { OnOk result (acts.new ≡ acts.old ++ (finishing cancel (keeper_of self.old)).line) }
        ensures keeper { OnOk result (keeper_of self.new ≡ (finishing cancel (keeper_of self.old)).next) }
        ensures splitter { self.new.core.splitter ≡ self.old.core.splitter }
    {
        self.say_step(Step::Talked(cancel), acts)?;
        self.say_step(Step::Done(true), acts)
    }

    /// Asks to close, where that has its place.
    fn ask_close(&mut self, acts: &mut KeeperActs) -> Result<(), NoMemory>
        ensures acts { OnOk result (acts.new ≡ acts.old ++ (requests (Close []) (keeper_of self.old)).line) }
        ensures keeper { OnOk result (keeper_of self.new ≡ (requests (Close []) (keeper_of self.old)).next) }
        ensures splitter { self.new.core.splitter ≡ self.old.core.splitter }
    {
        let reasons = Array8List::new(self.alloc);
        match self.core.ask(Request::Close(reasons)) {
            Ok(message) => say(self.alloc, &message, acts),
            Err(_) => Ok(()),
        }
    }

    /// Says that it closes, as one that was told to die.
    fn say_close(&self, acts: &mut KeeperActs) -> Result<(), NoMemory>
        ensures { OnOk result (acts.new ≡ acts.old ++ sends (closes []) ∷ []) }
    {
        let message = closing(Array8List::new(self.alloc));
        say(self.alloc, &message, acts)
    }

    /// Says that it closes.
    fn close(&mut self, acts: &mut KeeperActs) -> Result<(), NoMemory>
        ensures acts { OnOk result (acts.new ≡ acts.old ++ (closing_so (keeper_of self.old)).line) }
        ensures keeper { OnOk result (keeper_of self.new ≡ (closing_so (keeper_of self.old)).next) }
        ensures splitter { self.new.core.splitter ≡ self.old.core.splitter }
    {
        if self.program.is_joined() {
            self.ask_close(acts)
        } else {
            self.say_close(acts)
        }
    }

    /// Has the connection shut.
    pub fn shut(&mut self, acts: &mut KeeperActs) -> Result<(), NoMemory>
        ensures acts { OnOk result (acts.new ≡ acts.old ++ (dropping (keeper_of self.old)).line) }
        ensures keeper { OnOk result (keeper_of self.new ≡ (dropping (keeper_of self.old)).next) }
        ensures splitter { self.new.core.splitter ≡ self.old.core.splitter }
    {
        self.program.leave();
        acts.push(KeeperAct::Drop)
    }

    /// Leaves the session.
    fn leave(&mut self, acts: &mut KeeperActs) -> Result<(), NoMemory>
        ensures acts { OnOk result (acts.new ≡ acts.old ++ (leaving (keeper_of self.old)).line) }
        ensures keeper { OnOk result (keeper_of self.new ≡ (leaving (keeper_of self.old)).next) }
        ensures splitter { self.new.core.splitter ≡ self.old.core.splitter }
    {
        self.close(acts)?;
        self.shut(acts)
    }

    /// Does what a move of the talk asks.
    fn act(&mut self, moved: Move, acts: &mut KeeperActs) -> Result<(), NoMemory>
        ensures acts { OnOk result (acts.new ≡ acts.old ++ (moving moved (keeper_of self.old)).line) }
        ensures keeper { OnOk result (keeper_of self.new ≡ (moving moved (keeper_of self.old)).next) }
        ensures splitter { self.new.core.splitter ≡ self.old.core.splitter }
    {
        match moved {
            Move::Agree => {
                self.program.agree();
                self.finish(false, acts)
            }
            Move::Refuse => self.finish(true, acts),
            Move::Close(number) => acts.push(KeeperAct::Close(number)),
            Move::Show(number) => acts.push(KeeperAct::Show(number)),
            Move::Wait => Ok(()),
        }
    }

    /// Goes on with the talk, while the client has the token.
    fn talk_on(&mut self, acts: &mut KeeperActs) -> Result<(), NoMemory>
        ensures acts { OnOk result
            (acts.new ≡ acts.old ++ (talking self.old.program.life (keeper_of self.old)).line) }
        ensures keeper { OnOk result
            (keeper_of self.new ≡ (talking self.old.program.life (keeper_of self.old)).next) }
        ensures splitter { self.new.core.splitter ≡ self.old.core.splitter }
    {
        match self.program.life() {
            Life::Here => {
                let moved = self.program.take_turn(self.alloc)?;
                self.act(moved, acts)
            }
            Life::Starting => Ok(()),
            Life::Gone => self.act(Move::Agree, acts),
        }
    }

    /// Does what is due as something has changed: the talk goes on, or a program that has gone leaves.
    pub fn settle(&mut self, acts: &mut KeeperActs) -> Result<(), NoMemory>
        ensures acts { OnOk result (acts.new ≡ acts.old ++ (settled (keeper_of self.old)).line) }
        ensures keeper { OnOk result (keeper_of self.new ≡ (settled (keeper_of self.old)).next) }
        ensures splitter { self.new.core.splitter ≡ self.old.core.splitter }
    {
        if self.is_talking() {
            return self.talk_on(acts);
        }
        if self.program.is_leaving(self.is_idle()) {
            return self.leave(acts);
        }
        Ok(())
    }
}
