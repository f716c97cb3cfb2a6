ghost use Rattle.std.specs.Prelude.{◌≡◌};
ghost use Rattle.late_answers.specs.Late as of;

use crate::late::{Debt, Late, is_resting};
use crate::outcome::{Outcome, Outgoing, Said, Word};
use round_agreement::Wanted;
use session_clients::{is_owing, is_saving, is_shutdown, said};
use session_model::Phase;
use xsmp_messages::XsmpMessage;

/// What a message of a client's is, as far as it is about a save.
#[derive(Clone, Copy, Debug, PartialEq, Eq)]
pub enum Step {
    /// InteractRequest.
    AsksToTalk,
    /// InteractDone.
    HasTalked,
    /// SaveYourselfPhase2Request.
    WantsSecond,
    /// SaveYourselfDone.
    HasSaved,
    /// ConnectionClosed.
    Leaves,
    /// Any other.
    Besides,
}

fn step_of(message: &XsmpMessage) -> Step
    ensures { result ≡ of.step_of message.now }
{
    match message {
        XsmpMessage::InteractRequest { .. } => Step::AsksToTalk,
        XsmpMessage::InteractDone { .. } => Step::HasTalked,
        XsmpMessage::SaveYourselfPhase2Request => Step::WantsSecond,
        XsmpMessage::SaveYourselfDone { .. } => Step::HasSaved,
        XsmpMessage::ConnectionClosed { .. } => Step::Leaves,
        _ => Step::Besides,
    }
}

/// Whether a save has succeeded of which a client speaks, or else this.
fn saved_behind(message: &XsmpMessage, saved: bool) -> bool
    ensures { result ≡ of.saved_behind message.now saved }
{
    match message {
        XsmpMessage::SaveYourselfDone { success } => *success,
        _ => saved,
    }
}

/// Whether a client wants its logout called off.
fn is_cancel(message: &XsmpMessage) -> bool
    ensures { result ≡ of.is_cancel message.now }
{
    match message {
        XsmpMessage::InteractDone { cancel } => *cancel,
        _ => false,
    }
}

/// The phase of a client that has said this. Who calls its logout off has talked.
fn phase_behind(
    wanted: Option<Wanted>,
    message: &XsmpMessage,
    phase: Option<Phase>,
) -> Option<Phase>
    ensures { result ≡ of.phase_behind wanted message.now phase }
{
    if is_cancel(message) && is_shutdown(wanted) {
        let over = Word::TalkOver.message();
        said(phase, &over, wanted)
    } else {
        said(phase, message, wanted)
    }
}

impl Late {
    /// What is known behind an answer that was said before its Ping was answered: it is of an older save.
    fn answered_early(self, step: Step) -> Late
        ensures { result ≡ of.answered_early step self }
    {
        match step {
            Step::HasSaved => Late {
                answered: self.answered || self.debt.is_paid(),
                ..self
            },
            Step::AsksToTalk => self,
            Step::HasTalked => self,
            Step::WantsSecond => self,
            Step::Leaves => self,
            Step::Besides => self,
        }
    }

    /// What it owes behind an answer that comes late.
    fn answered_late(self, step: Step) -> Late
        ensures { result ≡ of.answered_late step self }
    {
        match step {
            Step::HasSaved => Late {
                debt: Debt::Paid,
                answered: true,
                ..self
            },
            Step::HasTalked => Late {
                debt: self.debt.behind_dialog(),
                ..self
            },
            Step::AsksToTalk => Late {
                debt: Debt::Waits,
                ..self
            },
            Step::WantsSecond => Late {
                debt: Debt::Waits,
                ..self
            },
            Step::Leaves => self,
            Step::Besides => self,
        }
    }

    /// What it owes behind an answer for which the manager waits since the logout was called off.
    fn answered_owing(self, step: Step) -> Late
        ensures { result ≡ of.answered_owing step self }
    {
        match step {
            Step::HasTalked => Late {
                debt: Debt::Works,
                ..self
            },
            Step::HasSaved => self.answered_late(Step::HasSaved),
            Step::AsksToTalk => self.answered_late(Step::AsksToTalk),
            Step::WantsSecond => self.answered_late(Step::WantsSecond),
            Step::Leaves => self,
            Step::Besides => self,
        }
    }

    /// Whether an answer has no place in the save that the manager knows of.
    fn has_no_place(self, step: Step) -> bool
        ensures { result ≡ of.has_no_place step self.phase }
    {
        match step {
            Step::HasSaved => !is_saving(self.phase),
            Step::AsksToTalk => is_resting(self.phase),
            Step::HasTalked => is_resting(self.phase),
            Step::WantsSecond => is_resting(self.phase),
            Step::Leaves => false,
            Step::Besides => false,
        }
    }

    /// Whether an answer is to a save that was called off.
    fn is_late(self, step: Step) -> bool
        ensures { result ≡ of.is_late step self }
    {
        !self.save.is_shown() || self.wary && self.has_no_place(step)
    }

    /// It has said this of the save of a logout that was called off.
    fn said_lately(self, message: &XsmpMessage) -> Late
        ensures { result ≡ of.said_lately message.now self }
    {
        Late {
            lately: if saved_behind(message, false) {
                2000
            } else {
                self.lately
            },
            ..self
        }
    }

    /// It has said this of the save that it was asked for last.
    fn behind(self, message: &XsmpMessage) -> Late
        ensures { result ≡ of.behind message.now self }
    {
        Late {
            phase: phase_behind(self.wanted, message, self.phase),
            saved: saved_behind(message, self.saved),
            ..self
        }
    }

    /// What is done about a message of the client's that is about a save.
    fn answers(self, step: Step, message: &XsmpMessage) -> Said
        ensures { result ≡ of.answers step message.now self }
    {
        let lately = self.said_lately(message);
        if self.pings > 0 {
            let early = lately.answered_early(step);
            Said::taken(Outcome::silent(Outgoing::NoBytes, early))
        } else if is_owing(self.phase) {
            Said::passing(lately.behind(message).answered_owing(step))
        } else if self.is_late(step) {
            Said::taken(lately.answered_late(step).settled())
        } else {
            Said::passing(self.behind(message))
        }
    }

    /// What is done about a message that the client says.
    pub fn said(self, message: &XsmpMessage) -> Said
        ensures { result ≡ of.said message.now self }
    {
        match step_of(message) {
            Step::AsksToTalk => self.answers(Step::AsksToTalk, message),
            Step::HasTalked => self.answers(Step::HasTalked, message),
            Step::WantsSecond => self.answers(Step::WantsSecond, message),
            Step::HasSaved => self.answers(Step::HasSaved, message),
            Step::Leaves => Said::passing(self.closed()),
            Step::Besides => Said::passing(self),
        }
    }

    /// What is known behind the answer to a Ping.
    fn ping_answered(self) -> Late
        ensures { result ≡ of.ping_answered self }
    {
        let pings = self.pings.saturating_sub(1);
        let is_settled = pings == 0 && self.answered && self.debt.is_paid();
        Late {
            pings,
            wary: self.wary && !is_settled,
            lately: 0,
            ..self
        }
    }

    /// What is done about a PingReply of the client's.
    pub fn replied(self) -> Said
        ensures { result ≡ of.replied self }
    {
        if self.pings > 0 {
            let answered = self.ping_answered();
            Said::taken(Outcome::silent(Outgoing::NoBytes, answered))
        } else {
            Said::passing(self)
        }
    }
}
