ghost use Rattle.std.specs.Prelude.{◌≡◌, ◌∷◌, IfOk, OnOk};
ghost use Rattle.session_model.specs.declared.events.SessionEvent.TheVariants.{Tick as HasTicked};
ghost use Rattle.session_model.specs.Moves.{Outside};
ghost use Rattle.session_model.specs.Replies as of;
ghost use Rattle.session_state.specs.Session.{Session, reading_in, moved, moved_all};
ghost use Rattle.manager_machine.specs.Answers.{moves_of};

use crate::replies::Reply;
use crate::session_core::Core;
use owned_lists::NoMemory;

impl Core {
    /// The answer to the passing of so many milliseconds.
    fn reply_to_tick(&self, milliseconds: u64) -> Result<Reply, NoMemory>
        ensures { IfOk result (λ reply. (s : Session) →
            moves_of s reply ≡ of.reply (reading_in self.now) (HasTicked milliseconds)) }
    {
        let late = self.clients.overdue(self.patience, milliseconds)?;
        Ok(Reply::ShutEach(self.departures(late.as_slice())?))
    }

    /// So many milliseconds have passed.
    pub(crate) fn answer_tick(&mut self, milliseconds: u64) -> Result<(), NoMemory>
        ensures { OnOk result
            (self.new ≡ moved_all
            (Outside (HasTicked milliseconds) ∷ of.reply (reading_in self.old)
            (HasTicked milliseconds)) self.old) }
    {
        let reply = self.reply_to_tick(milliseconds)?;
        self.tick(milliseconds);
        self.perform(reply)?;
        Ok(())
    }

    /// So many milliseconds have passed.
    fn tick(&mut self, milliseconds: u64)
        ensures { self.new ≡ moved (Outside (HasTicked milliseconds)) self.old }
    {
        self.clients.tick(milliseconds);
    }
}
