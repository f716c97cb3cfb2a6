ghost use Rattle.std.specs.Prelude.{◌≡◌};
ghost use Rattle.session_model.specs.Phases as of;
ghost use Rattle.session_model.specs.Replies.{is_late};

use ice_values::{Dialog, SaveStyle};
use round_agreement::Wanted;
use session_model::Phase;
use xsmp_messages::XsmpMessage;

/// Whether a client is registered and not yet told to die.
pub fn is_bound(phase: Option<Phase>) -> bool
    ensures { result ≡ of.is_bound phase }
{
    !matches!(phase, None | Some(Phase::Unregistered | Phase::Dying))
}

/// Whether XSMP has begun and the client hasn't an ID yet.
pub fn is_unregistered(phase: Option<Phase>) -> bool
    ensures { result ≡ of.is_unregistered phase }
{
    matches!(phase, Some(Phase::Unregistered))
}

/// Whether a client was told to die.
pub fn is_dying(phase: Option<Phase>) -> bool
    ensures { result ≡ of.is_dying phase }
{
    matches!(phase, Some(Phase::Dying))
}

/// Whether the round of a client was cancelled before it had saved.
pub fn is_owing(phase: Option<Phase>) -> bool
    ensures { result ≡ of.is_owing phase }
{
    matches!(phase, Some(Phase::Owing))
}

/// Whether a client saves, in the first phase or in the second.
pub fn is_saving(phase: Option<Phase>) -> bool
    ensures { result ≡ of.is_saving phase }
{
    matches!(phase, Some(Phase::Saving | Phase::SavingTwo))
}

/// Whether a client saves in the first phase.
pub fn is_first_saving(phase: Option<Phase>) -> bool
    ensures { result ≡ of.is_first_saving phase }
{
    matches!(phase, Some(Phase::Saving))
}

/// Whether a client is waited for: it saves, or owes an answer.
fn is_awaited(phase: Option<Phase>) -> bool
    ensures { result ≡ of.is_awaited phase }
{
    matches!(phase, Some(Phase::Saving | Phase::SavingTwo | Phase::Owing))
}

/// Whether a client of this phase, which has been quiet for so long, is overdue once these
/// milliseconds have passed. All three are in milliseconds; with a patience of 0 nobody is.
pub(crate) fn is_late(patience: u64, milliseconds: u64, phase: Option<Phase>, quiet: u64) -> bool
    ensures { result ≡ is_late patience milliseconds phase quiet }
{
    0 < patience && is_awaited(phase) && patience <= quiet.saturating_add(milliseconds)
}

/// Whether a client has the token.
pub fn is_interacting(phase: Option<Phase>) -> bool
    ensures { result ≡ of.is_interacting phase }
{
    matches!(phase, Some(Phase::Interacting | Phase::InteractingTwo))
}

/// Whether a style allows a dialog (XSMP, chapter 10: interact-style).
fn allows(style: SaveStyle, dialog: Dialog) -> bool
    ensures { result ≡ of.allows style dialog }
{
    match style {
        SaveStyle::Any => true,
        SaveStyle::Errors => matches!(dialog, Dialog::Error),
        SaveStyle::Nothing => false,
    }
}

/// Whether the running round, where there is one, allows a dialog.
pub fn may_interact(wanted: Option<Wanted>, dialog: Dialog) -> bool
    ensures { result ≡ of.may_interact wanted dialog }
{
    wanted.is_some_and(|wanted| allows(wanted.style, dialog))
}

/// Whether the running round, where there is one, is a shutdown.
pub fn is_shutdown(wanted: Option<Wanted>) -> bool
    ensures { result ≡ of.is_shutdown wanted }
{
    wanted.is_some_and(|wanted| wanted.shutdown)
}

/// It asks for the token.
fn asked(phase: Option<Phase>) -> Option<Phase>
    ensures { result ≡ of.asked_phase phase }
{
    match phase {
        Some(Phase::Saving) => Some(Phase::Asked),
        Some(Phase::SavingTwo) => Some(Phase::AskedTwo),
        other => other,
    }
}

/// It gives the token back.
fn talked(phase: Option<Phase>) -> Option<Phase>
    ensures { result ≡ of.talked_phase phase }
{
    match phase {
        Some(Phase::Interacting) => Some(Phase::Saving),
        Some(Phase::InteractingTwo) => Some(Phase::SavingTwo),
        other => other,
    }
}

/// It has saved.
fn saved(phase: Option<Phase>) -> Option<Phase>
    ensures { result ≡ of.saved_phase phase }
{
    match phase {
        Some(Phase::Saving | Phase::SavingTwo) => Some(Phase::Done),
        Some(Phase::Owing) => Some(Phase::Idle),
        other => other,
    }
}

/// It wants to save in the second phase.
fn second(phase: Option<Phase>) -> Option<Phase>
    ensures { result ≡ of.second_phase phase }
{
    match phase {
        Some(Phase::Saving) => Some(Phase::WantsTwo),
        other => other,
    }
}

/// The phase of a client after it said this, while the running round, if any, is begun for
/// `wanted`.
pub fn said(phase: Option<Phase>, message: &XsmpMessage, wanted: Option<Wanted>) -> Option<Phase>
    ensures { result ≡ of.phase_said (of.may_interact wanted) message.now phase }
{
    match message {
        XsmpMessage::InteractRequest { dialog } if may_interact(wanted, *dialog) => asked(phase),
        XsmpMessage::InteractDone { cancel: false } => talked(phase),
        XsmpMessage::SaveYourselfDone { .. } => saved(phase),
        XsmpMessage::SaveYourselfPhase2Request => second(phase),
        _ => phase,
    }
}

/// It gets an ID.
pub(crate) fn registered(phase: Option<Phase>) -> Option<Phase>
    ensures { result ≡ of.registered_phase phase }
{
    match phase {
        Some(Phase::Unregistered) => Some(Phase::Idle),
        other => other,
    }
}

/// It is asked to save.
fn begun(phase: Option<Phase>) -> Option<Phase>
    ensures { result ≡ of.begun_phase phase }
{
    match phase {
        Some(Phase::Idle) => Some(Phase::Saving),
        other => other,
    }
}

/// It gets the token.
fn held(phase: Option<Phase>) -> Option<Phase>
    ensures { result ≡ of.held_phase phase }
{
    match phase {
        Some(Phase::Asked) => Some(Phase::Interacting),
        Some(Phase::AskedTwo) => Some(Phase::InteractingTwo),
        other => other,
    }
}

/// It is asked to save in the second phase.
fn second_begun(phase: Option<Phase>) -> Option<Phase>
    ensures { result ≡ of.second_begun_phase phase }
{
    match phase {
        Some(Phase::WantsTwo) => Some(Phase::SavingTwo),
        other => other,
    }
}

/// Its round was agreed.
fn completed(phase: Option<Phase>) -> Option<Phase>
    ensures { result ≡ of.completed_phase phase }
{
    match phase {
        Some(Phase::Done) => Some(Phase::Idle),
        other => other,
    }
}

/// Its round was cancelled.
fn cancelled(phase: Option<Phase>) -> Option<Phase>
    ensures { result ≡ of.cancelled_phase phase }
{
    match phase? {
        Phase::Unregistered => Some(Phase::Unregistered),
        Phase::Idle | Phase::Done => Some(Phase::Idle),
        Phase::Dying => Some(Phase::Dying),
        _ => Some(Phase::Owing),
    }
}

/// It is told to die.
fn dying(phase: Option<Phase>) -> Option<Phase>
    ensures { result ≡ of.dying_phase phase }
{
    match phase? {
        Phase::Unregistered => Some(Phase::Unregistered),
        _ => Some(Phase::Dying),
    }
}

/// The phase of a client after it was sent this.
pub fn given(phase: Option<Phase>, message: &XsmpMessage) -> Option<Phase>
    ensures { result ≡ of.phase_given message.now phase }
{
    match message {
        XsmpMessage::RegisterClientReply { .. } => registered(phase),
        XsmpMessage::SaveYourself { .. } => begun(phase),
        XsmpMessage::Interact => held(phase),
        XsmpMessage::SaveYourselfPhase2 => second_begun(phase),
        XsmpMessage::SaveComplete => completed(phase),
        XsmpMessage::ShutdownCancelled => cancelled(phase),
        XsmpMessage::Die => dying(phase),
        _ => phase,
    }
}

/// The phase of a connection after XSMP began on it.
pub fn readied(phase: Option<Phase>) -> Option<Phase>
    ensures { result ≡ of.ready_phase phase }
{
    Some(phase.unwrap_or(Phase::Unregistered))
}
