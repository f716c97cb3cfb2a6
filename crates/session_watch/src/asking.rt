ghost use Rattle.std.specs.Prelude.{◌≡◌};
ghost use Rattle.session_watch.specs.Knowing.{asks as asked_in, answers as answered_in};

use ice_values::{SaveKind, SaveStyle};
use xsmp_messages::XsmpMessage;

/// What the manager asks a client, or tells it.
#[derive(Clone, Copy, Debug, PartialEq, Eq)]
pub enum Asked {
    /// SaveYourself.
    Save {
        kind: SaveKind,
        shutdown: bool,
        style: SaveStyle,
        fast: bool,
    },
    /// Interact.
    Interaction,
    /// SaveYourselfPhase2.
    PhaseTwo,
    /// SaveComplete.
    Complete,
    /// ShutdownCancelled.
    Cancelled,
    /// Die.
    Death,
}

/// What a client answers, or asks by itself.
#[derive(Clone, Copy, Debug, PartialEq, Eq)]
pub enum Answered {
    /// RegisterClient.
    Registered,
    /// SaveYourselfRequest.
    SaveRequested,
    /// InteractRequest.
    InteractRequested,
    /// InteractDone.
    InteractEnded,
    /// SaveYourselfPhase2Request.
    PhaseTwoRequested,
    /// SaveYourselfDone with success.
    Saved,
    /// SaveYourselfDone without.
    Failed,
    /// ConnectionClosed.
    Closed,
}

/// What a message of the manager's asks.
pub fn asks(message: &XsmpMessage) -> Option<Asked>
    ensures { result ≡ asked_in message.now }
{
    match message {
        XsmpMessage::SaveYourself {
            kind,
            shutdown,
            style,
            fast,
        } => Some(Asked::Save {
            kind: *kind,
            shutdown: *shutdown,
            style: *style,
            fast: *fast,
        }),
        XsmpMessage::Interact => Some(Asked::Interaction),
        XsmpMessage::SaveYourselfPhase2 => Some(Asked::PhaseTwo),
        XsmpMessage::SaveComplete => Some(Asked::Complete),
        XsmpMessage::ShutdownCancelled => Some(Asked::Cancelled),
        XsmpMessage::Die => Some(Asked::Death),
        _ => None,
    }
}

/// What a message of a client's answers.
pub fn answers(message: &XsmpMessage) -> Option<Answered>
    ensures { result ≡ answered_in message.now }
{
    match message {
        XsmpMessage::RegisterClient { .. } => Some(Answered::Registered),
        XsmpMessage::SaveYourselfRequest { .. } => Some(Answered::SaveRequested),
        XsmpMessage::InteractRequest { .. } => Some(Answered::InteractRequested),
        XsmpMessage::InteractDone { .. } => Some(Answered::InteractEnded),
        XsmpMessage::SaveYourselfPhase2Request => Some(Answered::PhaseTwoRequested),
        XsmpMessage::SaveYourselfDone { success } => {
            if *success {
                Some(Answered::Saved)
            } else {
                Some(Answered::Failed)
            }
        }
        XsmpMessage::ConnectionClosed { .. } => Some(Answered::Closed),
        _ => None,
    }
}
