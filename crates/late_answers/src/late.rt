ghost use Rattle.std.specs.Prelude.{◌≡◌};
ghost use Rattle.late_answers.specs.Late as of;

use crate::outcome::Word;
use ice_values::{Dialog, SaveStyle};
use round_agreement::Wanted;
use session_clients::{given, is_bound, is_owing, said};
use session_model::Phase;
use xsmp_messages::XsmpMessage;

/// What a client owes that was told that its logout is called off, until it has answered the save of that
/// logout.
#[derive(Clone, Copy, Debug, PartialEq, Eq)]
pub enum Debt {
    /// It owes nothing.
    Paid,
    /// It talks with its user: its dialog stands open.
    Talks,
    /// It saves on.
    Works,
    /// It waited for the token or for the second phase, and may never answer.
    Waits,
}

/// What a client knows of the save that the manager has asked it for.
#[derive(Clone, Copy, Debug, PartialEq, Eq)]
pub enum Save {
    /// It was asked.
    Shown,
    /// Its SaveYourself is kept back, and the manager waits for it.
    Held,
    /// Its SaveYourself was answered in its place.
    Hidden,
}

/// What is known of one client.
#[derive(Clone, Copy, Debug)]
pub struct Late {
    /// How far the client is, as the manager sees it, since its last logout began.
    pub phase: Option<Phase>,
    /// What the manager asked it to save last.
    pub wanted: Option<Wanted>,
    pub debt: Debt,
    pub save: Save,
    /// The token was asked for in its place.
    pub posing: bool,
    /// How many Pings it hasn't answered that were put before a SaveYourself.
    pub pings: u64,
    /// Answers to a save that was called off may still come.
    pub wary: bool,
    /// No save that was called off is without its answer.
    pub answered: bool,
    /// In how many milliseconds it is answered for, where it owes an answer that the manager waits for.
    pub left: u64,
    /// It has said of the save that it was asked for last that it succeeded.
    pub saved: bool,
    /// For how many milliseconds more it counts as one that leaves behind a logout that was called off.
    pub lately: u64,
    /// It has closed in this time.
    pub gone: bool,
}

impl Debt {
    pub(crate) fn is_paid(self) -> bool
        ensures { result ≡ of.is_paid self }
    {
        match self {
            Debt::Paid => true,
            Debt::Talks => false,
            Debt::Works => false,
            Debt::Waits => false,
        }
    }

    pub(crate) fn is_dialog(self) -> bool
        ensures { result ≡ of.is_dialog self }
    {
        match self {
            Debt::Talks => true,
            Debt::Paid => false,
            Debt::Works => false,
            Debt::Waits => false,
        }
    }

    /// Whether who owes it may be asked anew: it isn't at work.
    pub(crate) fn is_idle(self) -> bool
        ensures { result ≡ of.is_idle self }
    {
        match self {
            Debt::Paid => true,
            Debt::Waits => true,
            Debt::Talks => false,
            Debt::Works => false,
        }
    }

    /// What is owed once its dialog is over.
    pub(crate) fn behind_dialog(self) -> Debt
        ensures { result ≡ of.behind_dialog self }
    {
        match self {
            Debt::Talks => Debt::Works,
            Debt::Paid => Debt::Paid,
            Debt::Works => Debt::Works,
            Debt::Waits => Debt::Waits,
        }
    }
}

impl Save {
    pub(crate) fn is_shown(self) -> bool
        ensures { result ≡ of.is_shown self }
    {
        match self {
            Save::Shown => true,
            Save::Held => false,
            Save::Hidden => false,
        }
    }

    pub(crate) fn is_held(self) -> bool
        ensures { result ≡ of.is_held self }
    {
        match self {
            Save::Held => true,
            Save::Shown => false,
            Save::Hidden => false,
        }
    }

    pub(crate) fn is_hidden(self) -> bool
        ensures { result ≡ of.is_hidden self }
    {
        match self {
            Save::Hidden => true,
            Save::Shown => false,
            Save::Held => false,
        }
    }
}

/// The dialog that is asked for in a client's place: one that the save allows.
pub(crate) fn allowed_dialog(style: SaveStyle) -> Option<Dialog>
    ensures { result ≡ of.allowed_dialog style }
{
    match style {
        SaveStyle::Any => Some(Dialog::Normal),
        SaveStyle::Errors => Some(Dialog::Error),
        SaveStyle::Nothing => None,
    }
}

/// What a client owes whose logout is called off in this phase.
pub(crate) fn debt_at(phase: Option<Phase>) -> Debt
    ensures { result ≡ of.debt_at phase }
{
    match phase {
        Some(Phase::Saving) => Debt::Works,
        Some(Phase::SavingTwo) => Debt::Works,
        Some(Phase::Interacting) => Debt::Talks,
        Some(Phase::InteractingTwo) => Debt::Talks,
        Some(Phase::Asked) => Debt::Waits,
        Some(Phase::AskedTwo) => Debt::Waits,
        Some(Phase::WantsTwo) => Debt::Waits,
        _ => Debt::Paid,
    }
}

pub(crate) fn is_done(phase: Option<Phase>) -> bool
    ensures { result ≡ of.is_done phase }
{
    matches!(phase, Some(Phase::Done))
}

/// Whether a client that saves nothing now has no place for a word of a save.
pub(crate) fn is_resting(phase: Option<Phase>) -> bool
    ensures { result ≡ of.is_resting phase }
{
    matches!(phase, Some(Phase::Idle | Phase::Done))
}

fn is_at_rest(phase: Option<Phase>) -> bool
    ensures { result ≡ of.is_at_rest phase }
{
    matches!(phase, Some(Phase::Unregistered | Phase::Idle))
}

impl Late {
    /// A client that comes now. It counts as one that isn't registered.
    pub fn new() -> Late
        ensures { result ≡ of.at_first }
    {
        Late {
            phase: Some(Phase::Unregistered),
            wanted: None,
            debt: Debt::Paid,
            save: Save::Shown,
            posing: false,
            pings: 0,
            wary: false,
            answered: true,
            left: 0,
            saved: false,
            lately: 0,
            gone: false,
        }
    }

    /// Whether nothing of it is late and no logout runs for it.
    pub fn is_calm(self) -> bool
        ensures { result ≡ of.is_calm self }
    {
        !self.wary
            && self.save.is_shown()
            && !self.posing
            && self.pings == 0
            && is_at_rest(self.phase)
    }

    /// Whether somebody has answered for it, and nobody waits for it.
    pub fn is_excused(self) -> bool
        ensures { result ≡ of.is_excused self }
    {
        !self.debt.is_paid() && !self.save.is_held() && !is_owing(self.phase)
    }

    /// Whether the manager waits for an answer of it, which is given in its place once it is time, or it
    /// counts as one that leaves late, until it is time.
    pub fn waits(self) -> bool
        ensures { result ≡ of.waits self }
    {
        is_owing(self.phase) || self.lately > 0
    }

    /// What is known once it has closed.
    pub fn closed(self) -> Late
        ensures { result ≡ of.closed self }
    {
        Late {
            gone: self.gone || self.lately > 0 && is_bound(self.phase),
            ..self
        }
    }

    /// The manager sends this.
    pub(crate) fn given(self, message: &XsmpMessage) -> Late
        ensures { result ≡ of.given message.now self }
    {
        Late {
            phase: given(self.phase, message),
            ..self
        }
    }

    /// The manager hears this word in the client's place.
    pub(crate) fn speaking(self, word: Word) -> Late
        ensures { result ≡ of.speaking word self }
    {
        let message = word.message();
        Late {
            phase: said(self.phase, &message, self.wanted),
            ..self
        }
    }

    /// A SaveYourself goes out to it behind a Ping.
    pub(crate) fn pinged(self) -> Late
        ensures { result ≡ of.pinged self }
    {
        Late {
            save: Save::Shown,
            debt: Debt::Paid,
            pings: self.pings.saturating_add(1),
            ..self
        }
    }
}
