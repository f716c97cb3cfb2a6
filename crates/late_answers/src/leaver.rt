ghost use Rattle.std.specs.Prelude.{◌≡◌};
ghost use Rattle.late_answers.specs.Leavers as of;

use crate::late::Late;
use session_model::Phase;
use xsmp_messages::XsmpMessage;

/// How long the manager goes on with a client that has left.
#[derive(Clone, Copy, Debug, PartialEq, Eq)]
pub enum Stay {
    /// Its logout isn't over.
    Leaving,
    /// It left behind its logout, and waits for the token or for the second phase of another save.
    Waiting,
    /// It left behind its logout, and has failed in the save that runs.
    Unasked,
    /// Its logout was called off, and what it has saved isn't in a checkpoint yet.
    Unsaved,
    /// What it has saved is in a checkpoint.
    Saved,
    /// Its properties were asked for.
    Asking,
    /// It was started again.
    Expected,
    /// Its end is handed on.
    Over,
}

/// A client that has left a logout which it had answered, and whose end is held back.
#[derive(Clone, Copy, Debug)]
pub struct Leaver {
    pub stay: Stay,
    /// Its stream has ended.
    pub ended: bool,
    /// In how many milliseconds it goes on.
    pub left: u64,
}

/// What the manager hears of a leaver.
#[derive(Clone, Copy, Debug, PartialEq, Eq)]
pub enum Line {
    Nothing,
    /// SaveYourselfDone with success.
    Saved,
    /// InteractDone that doesn't cancel, and then SaveYourselfDone with success.
    TalkedAndSaved,
    /// SaveYourselfRequest for itself alone.
    AsksToSave,
    /// SaveYourselfDone without success, and then SaveYourselfRequest for itself alone.
    FailedAndAsks,
    /// GetProperties.
    AsksForProperties,
}

/// What a message of the manager's is to a leaver.
#[derive(Clone, Copy, Debug, PartialEq, Eq)]
pub enum Call {
    /// SaveYourself or SaveYourselfPhase2.
    Saves,
    /// Interact.
    Talks,
    /// ShutdownCancelled.
    CallsOff,
    /// SaveComplete.
    Completes,
    /// Die.
    Ends,
    /// Any other.
    Else,
}

/// What is done for a leaver.
#[derive(Clone, Copy, Debug)]
pub struct Parting {
    pub line: Line,
    /// What is known of it then.
    pub leaver: Leaver,
}

fn call_of(message: &XsmpMessage) -> Call
    ensures { result ≡ of.call_of message.now }
{
    match message {
        XsmpMessage::SaveYourself { .. } => Call::Saves,
        XsmpMessage::SaveYourselfPhase2 => Call::Saves,
        XsmpMessage::Interact => Call::Talks,
        XsmpMessage::ShutdownCancelled => Call::CallsOff,
        XsmpMessage::SaveComplete => Call::Completes,
        XsmpMessage::Die => Call::Ends,
        _ => Call::Else,
    }
}

impl Stay {
    /// It has answered a save.
    fn answered(self) -> Stay
        ensures { result ≡ of.stay_answered self }
    {
        match self {
            Stay::Waiting => Stay::Unsaved,
            Stay::Leaving => Stay::Leaving,
            Stay::Unasked => Stay::Unasked,
            Stay::Unsaved => Stay::Unsaved,
            Stay::Saved => Stay::Saved,
            Stay::Asking => Stay::Asking,
            Stay::Expected => Stay::Expected,
            Stay::Over => Stay::Over,
        }
    }

    /// Its logout is called off.
    fn called_off(self) -> Stay
        ensures { result ≡ of.stay_called_off self }
    {
        match self {
            Stay::Leaving => Stay::Unsaved,
            Stay::Waiting => Stay::Unsaved,
            Stay::Unasked => Stay::Unsaved,
            Stay::Unsaved => Stay::Unsaved,
            Stay::Saved => Stay::Saved,
            Stay::Asking => Stay::Asking,
            Stay::Expected => Stay::Expected,
            Stay::Over => Stay::Over,
        }
    }

    /// Its round is complete.
    fn completed(self) -> Stay
        ensures { result ≡ of.stay_completed self }
    {
        match self {
            Stay::Leaving => Stay::Over,
            Stay::Waiting => Stay::Waiting,
            Stay::Unasked => Stay::Unsaved,
            Stay::Unsaved => Stay::Saved,
            Stay::Saved => Stay::Saved,
            Stay::Asking => Stay::Asking,
            Stay::Expected => Stay::Expected,
            Stay::Over => Stay::Over,
        }
    }

    /// What comes once its time is over.
    fn due(self) -> Stay
        ensures { result ≡ of.stay_due self }
    {
        match self {
            Stay::Leaving => Stay::Leaving,
            Stay::Waiting => Stay::Waiting,
            Stay::Unasked => Stay::Unasked,
            Stay::Unsaved => Stay::Unsaved,
            Stay::Saved => Stay::Asking,
            Stay::Asking => Stay::Asking,
            Stay::Expected => Stay::Over,
            Stay::Over => Stay::Over,
        }
    }

    fn behind(self, call: Call) -> Stay
        ensures { result ≡ of.stay_behind call self }
    {
        match call {
            Call::Saves => self.answered(),
            Call::Talks => self.answered(),
            Call::CallsOff => self.called_off(),
            Call::Completes => self.completed(),
            Call::Ends => Stay::Over,
            Call::Else => self,
        }
    }

    /// What it says as its logout is called off.
    fn request(self) -> Line
        ensures { result ≡ of.request_at self }
    {
        match self {
            Stay::Leaving => Line::AsksToSave,
            Stay::Waiting => Line::FailedAndAsks,
            Stay::Unasked => Line::AsksToSave,
            Stay::Unsaved => Line::AsksToSave,
            Stay::Saved => Line::Nothing,
            Stay::Asking => Line::Nothing,
            Stay::Expected => Line::Nothing,
            Stay::Over => Line::Nothing,
        }
    }

    /// What it says as its round is complete.
    fn line_completed(self) -> Line
        ensures { result ≡ of.line_completed self }
    {
        match self {
            Stay::Unasked => Line::AsksToSave,
            Stay::Leaving => Line::Nothing,
            Stay::Waiting => Line::Nothing,
            Stay::Unsaved => Line::Nothing,
            Stay::Saved => Line::Nothing,
            Stay::Asking => Line::Nothing,
            Stay::Expected => Line::Nothing,
            Stay::Over => Line::Nothing,
        }
    }

    fn line_for(self, call: Call) -> Line
        ensures { result ≡ of.line_for call self }
    {
        match call {
            Call::Saves => Line::Saved,
            Call::Talks => Line::TalkedAndSaved,
            Call::CallsOff => self.request(),
            Call::Completes => self.line_completed(),
            Call::Ends => Line::Nothing,
            Call::Else => Line::Nothing,
        }
    }

    /// What it says once its time is over.
    fn line_due(self) -> Line
        ensures { result ≡ of.line_due self }
    {
        match self {
            Stay::Saved => Line::AsksForProperties,
            Stay::Leaving => Line::Nothing,
            Stay::Waiting => Line::Nothing,
            Stay::Unasked => Line::Nothing,
            Stay::Unsaved => Line::Nothing,
            Stay::Asking => Line::Nothing,
            Stay::Expected => Line::Nothing,
            Stay::Over => Line::Nothing,
        }
    }

    /// Whether its time counts.
    fn is_timed(self) -> bool
        ensures { result ≡ of.is_timed self }
    {
        match self {
            Stay::Saved => true,
            Stay::Expected => true,
            Stay::Leaving => false,
            Stay::Waiting => false,
            Stay::Unasked => false,
            Stay::Unsaved => false,
            Stay::Asking => false,
            Stay::Over => false,
        }
    }

    fn is_asking(self) -> bool
        ensures { result ≡ of.is_asking self }
    {
        match self {
            Stay::Asking => true,
            Stay::Leaving => false,
            Stay::Waiting => false,
            Stay::Unasked => false,
            Stay::Unsaved => false,
            Stay::Saved => false,
            Stay::Expected => false,
            Stay::Over => false,
        }
    }

    /// Whether its end is handed on.
    pub fn is_over(self) -> bool
        ensures { result ≡ of.is_over self }
    {
        match self {
            Stay::Over => true,
            Stay::Leaving => false,
            Stay::Waiting => false,
            Stay::Unasked => false,
            Stay::Unsaved => false,
            Stay::Saved => false,
            Stay::Asking => false,
            Stay::Expected => false,
        }
    }
}

impl Leaver {
    /// A client that has just left, and stays so.
    fn at(stay: Stay) -> Leaver
        ensures { result ≡ of.leaver_at stay }
    {
        Leaver {
            stay,
            ended: false,
            left: 2000,
        }
    }

    /// A client that has just left.
    pub fn new() -> Leaver
        ensures { result ≡ of.leaver_at_first }
    {
        Leaver::at(Stay::Leaving)
    }

    /// Its stream has ended.
    pub fn ended(self) -> Leaver
        ensures { result ≡ of.leaver_ended self }
    {
        Leaver {
            ended: true,
            ..self
        }
    }

    /// What is done about a message that the manager sends to it.
    pub fn told(self, message: &XsmpMessage) -> Parting
        ensures { result ≡ of.leaver_told message.now self }
    {
        let call = call_of(message);
        Parting {
            line: self.stay.line_for(call),
            leaver: Leaver {
                stay: self.stay.behind(call),
                ..self
            },
        }
    }

    /// Whether its properties are wanted.
    pub fn is_asking(self) -> bool
        ensures { result ≡ of.is_asking self.stay }
    {
        self.stay.is_asking()
    }

    /// Its properties came, and it is started again by one of them or isn't.
    pub fn known(self, starts: bool) -> Leaver
        ensures { result ≡ of.leaver_known starts self }
    {
        if starts {
            Leaver {
                stay: Stay::Expected,
                left: 60_000,
                ..self
            }
        } else {
            Leaver {
                stay: Stay::Over,
                ..self
            }
        }
    }

    /// Whether something is done for it as time passes.
    pub fn waits(self) -> bool
        ensures { result ≡ of.leaver_waits self }
    {
        self.ended && self.stay.is_timed()
    }

    /// What is known once its time is over.
    fn due(self) -> Parting
        ensures { result ≡ of.leaver_due self }
    {
        Parting {
            line: self.stay.line_due(),
            leaver: Leaver {
                stay: self.stay.due(),
                ..self
            },
        }
    }

    /// What is done as so many milliseconds pass.
    pub fn passed(self, milliseconds: u64) -> Parting
        ensures { result ≡ of.leaver_passed milliseconds self }
    {
        if !self.waits() {
            return Parting {
                line: Line::Nothing,
                leaver: self,
            };
        }
        let later = Leaver {
            left: self.left.saturating_sub(milliseconds),
            ..self
        };
        if later.left == 0 {
            later.due()
        } else {
            Parting {
                line: Line::Nothing,
                leaver: later,
            }
        }
    }
}

/// What is done at once for a client that leaves in this phase, behind a logout that was called off.
fn late_parting(phase: Option<Phase>) -> Parting
    ensures { result ≡ of.late_parting phase }
{
    let (line, stay) = match phase {
        Some(Phase::Idle) => (Line::AsksToSave, Stay::Unsaved),
        Some(Phase::Owing) => (Line::FailedAndAsks, Stay::Unsaved),
        Some(Phase::Saving) => (Line::Saved, Stay::Unsaved),
        Some(Phase::SavingTwo) => (Line::Saved, Stay::Unsaved),
        Some(Phase::Interacting) => (Line::TalkedAndSaved, Stay::Unsaved),
        Some(Phase::InteractingTwo) => (Line::TalkedAndSaved, Stay::Unsaved),
        Some(Phase::Done) => (Line::Nothing, Stay::Unasked),
        _ => (Line::Nothing, Stay::Waiting),
    };
    Parting {
        line,
        leaver: Leaver::at(stay),
    }
}

impl Late {
    /// What is done at once for the client, once its end is held back.
    pub fn parting(self) -> Parting
        ensures { result ≡ of.parting_of self }
    {
        if self.gone {
            late_parting(self.phase)
        } else {
            Parting {
                line: Line::Nothing,
                leaver: Leaver::new(),
            }
        }
    }
}
