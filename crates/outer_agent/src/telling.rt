use crate::progress::Progress;
use client_engine::spell;
use client_machine::Request;
use ice_values::Array8List;
use owned_lists::{NoMemory, Octets};

impl Progress {
    ghost use Rattle.std.specs.Prelude.{◌≡◌, IfOk, OnOk};
    ghost use Rattle.outer_agent.specs.Doing.{keeper_of};
    ghost use Rattle.outer_agent.specs.Script.{closing, telling};

    /// Says how a save ended, where the outer manager waits for that.
    pub fn tell(&mut self, success: bool) -> Result<Octets, NoMemory>
        ensures bytes { IfOk result (λ bytes. bytes ≡ (telling (keeper_of self.old) success).line) }
        ensures keeper { OnOk result (keeper_of self.new
            ≡ (telling (keeper_of self.old) success).next) }
        ensures splitter { self.new.core.splitter ≡ self.old.core.splitter }
    {
        let mut bytes = Octets::new(self.alloc);
        match self.core.ask(Request::Done(success)) {
            Ok(message) => spell(&message, &mut bytes)?,
            Err(_) => {}
        }
        Ok(bytes)
    }

    /// Closes, where the client has an ID.
    pub fn close(&mut self) -> Result<Octets, NoMemory>
        ensures bytes { IfOk result (λ bytes. bytes ≡ (closing (keeper_of self.old)).line) }
        ensures keeper { OnOk result (keeper_of self.new ≡ (closing (keeper_of self.old)).next) }
        ensures splitter { self.new.core.splitter ≡ self.old.core.splitter }
    {
        if self.core.id().is_none() {
            return Ok(Octets::new(self.alloc));
        }
        let reasons = Array8List::new(self.alloc);
        let message = match self.core.ask(Request::Close(reasons)) {
            Ok(message) => message,
            Err(_) => unreachable!(),
        };
        let mut bytes = Octets::new(self.alloc);
        spell(&message, &mut bytes)?;
        Ok(bytes)
    }
}
