ghost use Rattle.std.specs.Prelude.{◌≡◌};
ghost use Rattle.client_machine.specs.Saves.{allows, at_stage, step_request};

use crate::Request;
use ice_values::{Dialog, PropertyList, SaveKind, SaveStyle};

/// Where in a save the client is asked.
#[derive(Clone, Copy, Debug, PartialEq, Eq)]
pub enum Stage {
    /// The first phase of the save.
    First,
    /// The second phase, when all others are done.
    Second,
    /// The client may talk to the user, in the first phase.
    Talking,
    /// The client may talk to the user, in the second phase.
    TalkingTwo,
}

/// What the client is asked to do in a save (XSMP, chapter 7: SaveYourself, Interact and
/// SaveYourselfPhase2).
#[derive(Clone, Copy, Debug, PartialEq, Eq)]
pub struct SaveAsk {
    pub stage: Stage,
    /// What is to be saved.
    pub kind: SaveKind,
    /// Whether the session ends where all agree.
    pub shutdown: bool,
    /// Which dialogs the client may show.
    pub style: SaveStyle,
    /// Whether the client is to save as quickly as it can.
    pub fast: bool,
}

/// How a client goes on in a save.
#[derive(Clone, Copy, Debug, PartialEq, Eq)]
pub enum Step {
    /// It has saved, with success or without.
    Done(bool),
    /// It saves when the others are done.
    PhaseTwo,
    /// It wants to show a dialog.
    Interact(Dialog),
    /// It has talked to the user, who wants the shutdown cancelled or not.
    Talked(bool),
}

/// What a client answers to a SaveAsk.
#[derive(Debug, Drop)]
pub struct SaveAnswer {
    /// The properties that it sets, before it goes on.
    pub set: PropertyList,
    pub step: Step,
}

impl SaveAsk {
    /// The same save at another stage.
    pub(crate) fn at(self, stage: Stage) -> SaveAsk
        ensures { result ≡ at_stage stage self }
    {
        SaveAsk { stage, ..self }
    }

    /// Whether the save lets the client show this dialog.
    pub(crate) fn allows(self, dialog: Dialog) -> bool
        ensures { result ≡ allows self.style dialog }
    {
        match self.style {
            SaveStyle::Any => true,
            SaveStyle::Errors => dialog == Dialog::Error,
            SaveStyle::Nothing => false,
        }
    }
}

impl Step {
    /// The request that says it.
    pub fn request(self) -> Request
        ensures { result ≡ step_request self }
    {
        match self {
            Step::Done(success) => Request::Done(success),
            Step::PhaseTwo => Request::PhaseTwo,
            Step::Interact(dialog) => Request::Interact(dialog),
            Step::Talked(cancel) => Request::InteractDone(cancel),
        }
    }
}
