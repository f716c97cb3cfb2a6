ghost use Rattle.std.specs.Prelude.{◌≡◌};
ghost use Rattle.client_machine.specs.Phases.{phase_said, is_registering as is_registering_phase, is_registered as is_registered_phase, is_resting as is_resting_phase, is_saving as is_saving_phase, is_first_saving as is_first_saving_phase, is_interacting as is_interacting_phase, is_owing as is_owing_phase, is_done as is_done_phase, is_member as is_member_phase, is_dead as is_dead_phase, asked_phase, talked_phase, saved_phase, second_phase, cancelled_phase};

use crate::Request;

/// How far a client is (XSMP, chapter 9: Client State Diagram).
#[derive(Clone, Copy, Debug, PartialEq, Eq)]
pub enum ClientPhase {
    /// It has no ID yet: it waits for the answer to its RegisterClient, or will.
    Registering,
    Idle,
    /// Asked to save, and saving in the first phase.
    Saving,
    /// Waits for the token while it saves.
    Asked,
    /// Has the token: it may talk to the user.
    Interacting,
    /// Waits until the others are done, to save behind them.
    WantsTwo,
    /// Saving in the second phase.
    SavingTwo,
    /// Waits for the token while it saves in the second phase.
    AskedTwo,
    /// Has the token in the second phase.
    InteractingTwo,
    /// Has saved, with or without success, and hasn't heard yet whether the others have.
    Done,
    /// Its save was cancelled, and its answer to that SaveYourself is still to be sent.
    Owing,
    /// It is told to die, or has closed, or an Error ended the session for it.
    Dead,
}

impl ClientPhase {
    /// It has no ID yet.
    pub(crate) fn is_registering(self) -> bool
        ensures { result ≡ is_registering_phase self }
    {
        self == ClientPhase::Registering
    }

    pub(crate) fn is_dead(self) -> bool
        ensures { result ≡ is_dead_phase self }
    {
        self == ClientPhase::Dead
    }

    /// It has an ID and is alive.
    pub(crate) fn is_registered(self) -> bool
        ensures { result ≡ is_registered_phase self }
    {
        !self.is_registering() && !self.is_dead()
    }

    pub(crate) fn is_done(self) -> bool
        ensures { result ≡ is_done_phase self }
    {
        self == ClientPhase::Done
    }

    pub(crate) fn is_owing(self) -> bool
        ensures { result ≡ is_owing_phase self }
    {
        self == ClientPhase::Owing
    }

    /// No SaveYourself is open.
    pub(crate) fn is_resting(self) -> bool
        ensures { result ≡ is_resting_phase self }
    {
        self == ClientPhase::Idle || self.is_done()
    }

    pub(crate) fn is_first_saving(self) -> bool
        ensures { result ≡ is_first_saving_phase self }
    {
        self == ClientPhase::Saving
    }

    /// It saves, in the first phase or in the second.
    pub(crate) fn is_saving(self) -> bool
        ensures { result ≡ is_saving_phase self }
    {
        self.is_first_saving() || self == ClientPhase::SavingTwo
    }

    /// It may talk to the user.
    pub(crate) fn is_interacting(self) -> bool
        ensures { result ≡ is_interacting_phase self }
    {
        self == ClientPhase::Interacting || self == ClientPhase::InteractingTwo
    }

    /// It was asked to save, and that save is neither complete nor cancelled.
    pub(crate) fn is_member(self) -> bool
        ensures { result ≡ is_member_phase self }
    {
        match self {
            ClientPhase::Registering => false,
            ClientPhase::Idle => false,
            ClientPhase::Owing => false,
            ClientPhase::Dead => false,
            _ => true,
        }
    }

    /// After it asked for the token.
    pub(crate) fn asked(self) -> ClientPhase
        ensures { result ≡ asked_phase self }
    {
        match self {
            ClientPhase::Saving => ClientPhase::Asked,
            ClientPhase::SavingTwo => ClientPhase::AskedTwo,
            _ => self,
        }
    }

    /// After it has talked to the user.
    pub(crate) fn talked(self) -> ClientPhase
        ensures { result ≡ talked_phase self }
    {
        match self {
            ClientPhase::Interacting => ClientPhase::Saving,
            ClientPhase::InteractingTwo => ClientPhase::SavingTwo,
            _ => self,
        }
    }

    /// After it said that it has saved.
    pub(crate) fn saved(self) -> ClientPhase
        ensures { result ≡ saved_phase self }
    {
        match self {
            ClientPhase::Saving => ClientPhase::Done,
            ClientPhase::SavingTwo => ClientPhase::Done,
            ClientPhase::Owing => ClientPhase::Idle,
            _ => self,
        }
    }

    /// After it asked to save in the second phase.
    pub(crate) fn second(self) -> ClientPhase
        ensures { result ≡ second_phase self }
    {
        match self {
            ClientPhase::Saving => ClientPhase::WantsTwo,
            _ => self,
        }
    }

    /// After it sent this, where it may.
    pub(crate) fn said(self, request: &Request) -> ClientPhase
        ensures { result ≡ phase_said request.now self }
    {
        match request {
            Request::Done(_) => self.saved(),
            Request::PhaseTwo => self.second(),
            Request::Interact(_) => self.asked(),
            Request::InteractDone(_) => self.talked(),
            Request::Close(_) => ClientPhase::Dead,
            _ => self,
        }
    }

    /// After its save was cancelled.
    pub(crate) fn cancelled(self) -> ClientPhase
        ensures { result ≡ cancelled_phase self }
    {
        match self {
            ClientPhase::Done => ClientPhase::Idle,
            ClientPhase::Saving => ClientPhase::Owing,
            ClientPhase::Asked => ClientPhase::Owing,
            ClientPhase::Interacting => ClientPhase::Owing,
            ClientPhase::WantsTwo => ClientPhase::Owing,
            ClientPhase::SavingTwo => ClientPhase::Owing,
            ClientPhase::AskedTwo => ClientPhase::Owing,
            ClientPhase::InteractingTwo => ClientPhase::Owing,
            _ => self,
        }
    }
}
