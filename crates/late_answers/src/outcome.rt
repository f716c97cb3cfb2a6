ghost use Rattle.std.specs.Prelude.{◌≡◌};
ghost use Rattle.late_answers.specs.Late as of;

use crate::late::Late;
use ice_values::Dialog;
use xsmp_messages::XsmpMessage;

/// What goes out to a client.
#[derive(Clone, Copy, Debug, PartialEq, Eq)]
pub enum Outgoing {
    /// The message, as it came.
    Itself,
    /// The message, behind a Ping.
    BehindPing,
    /// The SaveYourself that was kept back, behind a Ping.
    HeldSave,
    NoBytes,
}

/// What the manager hears in a client's place.
#[derive(Clone, Copy, Debug, PartialEq, Eq)]
pub enum Word {
    /// SaveYourselfDone without success.
    Failed,
    /// InteractRequest.
    AsksFor(Dialog),
    /// InteractDone that doesn't cancel.
    TalkOver,
}

/// What is done about a message of the manager's, or as time passes.
#[derive(Clone, Copy, Debug)]
pub struct Outcome {
    pub outgoing: Outgoing,
    pub word: Option<Word>,
    /// What is known of the client then.
    pub late: Late,
}

/// What is done about a message of the client's.
#[derive(Clone, Copy, Debug)]
pub struct Said {
    /// The message is handed on to the manager.
    pub passes: bool,
    pub outgoing: Outgoing,
    pub word: Option<Word>,
    /// What is known of the client then.
    pub late: Late,
}

impl Word {
    pub fn message(self) -> XsmpMessage
        ensures { result ≡ of.message_of self }
    {
        match self {
            Word::Failed => XsmpMessage::SaveYourselfDone { success: false },
            Word::AsksFor(dialog) => XsmpMessage::InteractRequest { dialog },
            Word::TalkOver => XsmpMessage::InteractDone { cancel: false },
        }
    }
}

impl Outcome {
    /// The message goes out as it came, and the manager hears nothing.
    pub fn as_it_came(late: Late) -> Outcome
        ensures { result ≡ of.as_it_came late }
    {
        Outcome {
            outgoing: Outgoing::Itself,
            word: None,
            late,
        }
    }

    /// The manager hears nothing.
    pub(crate) fn silent(outgoing: Outgoing, late: Late) -> Outcome
        ensures { result ≡ of.outcome outgoing None late }
    {
        Outcome {
            outgoing,
            word: None,
            late,
        }
    }

    /// The manager hears a word in the client's place.
    pub(crate) fn spoken(outgoing: Outgoing, word: Word, late: Late) -> Outcome
        ensures { result ≡ of.spoken outgoing word late }
    {
        Outcome {
            outgoing,
            word: Some(word),
            late: late.speaking(word),
        }
    }
}

impl Said {
    /// The message is handed on as it came.
    pub fn passing(late: Late) -> Said
        ensures { result ≡ of.passing late }
    {
        Said {
            passes: true,
            outgoing: Outgoing::NoBytes,
            word: None,
            late,
        }
    }

    /// The message is taken away, and this is done.
    pub(crate) fn taken(outcome: Outcome) -> Said
        ensures { result ≡ of.taken outcome }
    {
        Said {
            passes: false,
            outgoing: outcome.outgoing,
            word: outcome.word,
            late: outcome.late,
        }
    }
}
