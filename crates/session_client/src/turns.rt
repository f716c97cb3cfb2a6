ghost use Rattle.std.specs.Prelude.{◌≡◌, false, true, IfOk, IfErr};
ghost use Rattle.client_engine.specs.Answering.{is_closing, may_ask_at};
ghost use Rattle.client_machine.specs.Asking.{requested};
ghost use Rattle.client_machine.specs.declared.requests.Request.TheVariants.{Done, Interact, InteractDone, PhaseTwo};
ghost use Rattle.protocol_messages.specs.declared.message.Message.TheVariants.{Xsmp};
ghost use Rattle.client_engine.specs.Places.{phase_at};
ghost use Rattle.client_machine.specs.Phases.{is_registered};
ghost use Rattle.session_client.specs.Turns.{HasSaid, Refuses, TurnsAs};
ghost use Rattle.xsmp_messages.specs.declared.message.XsmpMessage.TheVariants.{InteractDone as SayTalked, InteractRequest, SaveYourselfDone, SaveYourselfPhase2Request};

use crate::client::Member;
use client_engine::Core;
use client_machine::{ClientPhase, Request};
use ice_values::Dialog;
use protocol_messages::Message;
use std::marker::Model;

/// A client that saves, in the first phase.
#[derive(Drop)]
pub struct Saving {
    core: Core,
}

/// A client that saves in the second phase, behind the others.
#[derive(Drop)]
pub struct SavingTwo {
    core: Core,
}

/// A client that may talk to the user.
#[derive(Drop)]
pub struct Talking {
    core: Core,
}

/// A client whose save was cancelled before it had answered: the answer is still to be said.
#[derive(Drop)]
pub struct Owing {
    core: Core,
}

/// What is awaited of a member.
#[derive(Drop)]
pub enum Turn {
    /// Nothing: no save is open, or it waits for the token or for the second phase.
    Resting(Member),
    Saving(Saving),
    SavingTwo(SavingTwo),
    Talking(Talking),
    Owing(Owing),
}

impl Model for Saving {
    ghost use Rattle.std.specs.Prelude.{◌≡◌};
    ghost use Rattle.client_engine.specs.declared.engine.Core.{Core};
    ghost use Rattle.client_engine.specs.Places.{phase_at};
    ghost use Rattle.client_machine.specs.declared.phase.ClientPhase.TheVariants.{Saving as InSaving};

    ghost Value = { Core };

    ghost view = { λ saving. saving.core };

    ghost invariant = { λ saving. phase_at saving.core.talk.place ≡ InSaving };
}

impl Model for SavingTwo {
    ghost use Rattle.std.specs.Prelude.{◌≡◌};
    ghost use Rattle.client_engine.specs.declared.engine.Core.{Core};
    ghost use Rattle.client_engine.specs.Places.{phase_at};
    ghost use Rattle.client_machine.specs.declared.phase.ClientPhase.TheVariants.{SavingTwo as InSavingTwo};

    ghost Value = { Core };

    ghost view = { λ saving. saving.core };

    ghost invariant = { λ saving. phase_at saving.core.talk.place ≡ InSavingTwo };
}

impl Model for Talking {
    ghost use Rattle.std.specs.Prelude.{◌≡◌, true};
    ghost use Rattle.client_engine.specs.declared.engine.Core.{Core};
    ghost use Rattle.client_engine.specs.Places.{phase_at};
    ghost use Rattle.client_machine.specs.Phases.{is_interacting};

    ghost Value = { Core };

    ghost view = { λ talking. talking.core };

    ghost invariant = { λ talking. is_interacting (phase_at talking.core.talk.place) ≡ true };
}

impl Model for Owing {
    ghost use Rattle.std.specs.Prelude.{◌≡◌, true};
    ghost use Rattle.client_engine.specs.declared.engine.Core.{Core};
    ghost use Rattle.client_engine.specs.Places.{phase_at};
    ghost use Rattle.client_machine.specs.Phases.{is_owing};

    ghost Value = { Core };

    ghost view = { λ owing. owing.core };

    ghost invariant = { λ owing. is_owing (phase_at owing.core.talk.place) ≡ true };
}

/// The client says a request, where it has its place; else nothing of it changes.
fn try_said(core: Core, request: Request) -> Result<(Member, Message), Core>
    requires member { is_registered (phase_at core.talk.place) ≡ true }
    requires open { is_closing request ≡ false }
    ensures said { IfOk result (λ r. HasSaid request core r.0) }
    ensures message { IfOk result (λ r. r.1 ≡ Xsmp (requested request)) }
    ensures refused { IfErr result (λ same. Refuses request core same) }
{
    let mut core = core;
    match core.ask(request) {
        Ok(message) => Ok((Member { core }, message)),
        Err(_) => Err(core),
    }
}

/// The client says a request that has its place.
fn said(core: Core, request: Request) -> (Member, Message)
    requires member { is_registered (phase_at core.talk.place) ≡ true }
    requires open { is_closing request ≡ false }
    requires place { may_ask_at request core.talk.place ≡ true }
    ensures member { HasSaid request core result.0 }
    ensures message { result.1 ≡ Xsmp (requested request) }
{
    match try_said(core, request) {
        Ok(said) => said,
        Err(_) => unreachable!(),
    }
}

impl Member {
    /// What is awaited of the client. Each turn gives the member back by `later`, so an answer can wait.
    pub fn turn(self) -> Turn
        ensures { TurnsAs self result }
    {
        let core = self.core;
        match core.phase() {
            ClientPhase::Saving => Turn::Saving(Saving { core }),
            ClientPhase::SavingTwo => Turn::SavingTwo(SavingTwo { core }),
            ClientPhase::Interacting => Turn::Talking(Talking { core }),
            ClientPhase::InteractingTwo => Turn::Talking(Talking { core }),
            ClientPhase::Owing => Turn::Owing(Owing { core }),
            _ => Turn::Resting(Member { core }),
        }
    }
}

impl Saving {
    /// It wants to show a dialog (XSMP, chapter 7: InteractRequest). The turn comes back where the
    /// save's style doesn't allow that.
    pub fn interact(self, dialog: Dialog) -> Result<(Member, Message), Saving>
        ensures said { IfOk result (λ r. HasSaid (Interact dialog) self r.0) }
        ensures message { IfOk result (λ r. r.1 ≡ Xsmp (InteractRequest dialog)) }
        ensures refused { IfErr result (λ same. Refuses (Interact dialog) self same) }
    {
        match try_said(self.core, Request::Interact(dialog)) {
            Ok(said) => Ok(said),
            Err(core) => Err(Saving { core }),
        }
    }

    /// It has saved, with success or without (XSMP, chapter 7: SaveYourselfDone).
    pub fn done(self, success: bool) -> (Member, Message)
        ensures member { HasSaid (Done success) self result.0 }
        ensures message { result.1 ≡ Xsmp (SaveYourselfDone success) }
    {
        said(self.core, Request::Done(success))
    }

    /// It saves when the others are done (XSMP, chapter 7: SaveYourselfPhase2Request).
    pub fn phase_two(self) -> (Member, Message)
        ensures member { HasSaid PhaseTwo self result.0 }
        ensures message { result.1 ≡ Xsmp SaveYourselfPhase2Request }
    {
        said(self.core, Request::PhaseTwo)
    }

    /// The answer comes later; until then the client may do what a member may.
    pub fn later(self) -> Member
        ensures { result ≡ self }
    {
        Member { core: self.core }
    }
}

impl SavingTwo {
    /// It wants to show a dialog (XSMP, chapter 7: InteractRequest). The turn comes back where the
    /// save's style doesn't allow that.
    pub fn interact(self, dialog: Dialog) -> Result<(Member, Message), SavingTwo>
        ensures said { IfOk result (λ r. HasSaid (Interact dialog) self r.0) }
        ensures message { IfOk result (λ r. r.1 ≡ Xsmp (InteractRequest dialog)) }
        ensures refused { IfErr result (λ same. Refuses (Interact dialog) self same) }
    {
        match try_said(self.core, Request::Interact(dialog)) {
            Ok(said) => Ok(said),
            Err(core) => Err(SavingTwo { core }),
        }
    }

    /// It has saved, with success or without (XSMP, chapter 7: SaveYourselfDone).
    pub fn done(self, success: bool) -> (Member, Message)
        ensures member { HasSaid (Done success) self result.0 }
        ensures message { result.1 ≡ Xsmp (SaveYourselfDone success) }
    {
        said(self.core, Request::Done(success))
    }

    /// The answer comes later; until then the client may do what a member may.
    pub fn later(self) -> Member
        ensures { result ≡ self }
    {
        Member { core: self.core }
    }
}

impl Talking {
    /// It has talked to the user, who wants the shutdown cancelled (XSMP, chapter 7: InteractDone). The
    /// turn comes back where no shutdown goes on.
    pub fn cancel(self) -> Result<(Member, Message), Talking>
        ensures said { IfOk result (λ r. HasSaid (InteractDone true) self r.0) }
        ensures message { IfOk result (λ r. r.1 ≡ Xsmp (SayTalked true)) }
        ensures refused { IfErr result (λ same. Refuses (InteractDone true) self same) }
    {
        match try_said(self.core, Request::InteractDone(true)) {
            Ok(said) => Ok(said),
            Err(core) => Err(Talking { core }),
        }
    }

    /// It has talked to the user, who has nothing against what goes on (XSMP, chapter 7: InteractDone).
    pub fn talked(self) -> (Member, Message)
        ensures member { HasSaid (InteractDone false) self result.0 }
        ensures message { result.1 ≡ Xsmp (SayTalked false) }
    {
        said(self.core, Request::InteractDone(false))
    }

    /// The answer comes later; until then the client may do what a member may.
    pub fn later(self) -> Member
        ensures { result ≡ self }
    {
        Member { core: self.core }
    }
}

impl Owing {
    /// It says that it didn't save (XSMP, chapter 7: SaveYourselfDone).
    pub fn done(self) -> (Member, Message)
        ensures member { HasSaid (Done false) self result.0 }
        ensures message { result.1 ≡ Xsmp (SaveYourselfDone false) }
    {
        said(self.core, Request::Done(false))
    }

    /// The answer comes later; until then the client may do what a member may.
    pub fn later(self) -> Member
        ensures { result ≡ self }
    {
        Member { core: self.core }
    }
}
