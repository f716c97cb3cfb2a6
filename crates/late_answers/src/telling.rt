ghost use Rattle.std.specs.Prelude.{◌≡◌};
ghost use Rattle.late_answers.specs.Late as of;

use crate::late::{Debt, Late, Save, allowed_dialog, debt_at, is_done};
use crate::outcome::{Outcome, Outgoing, Word};
use ice_values::Dialog;
use round_agreement::Wanted;
use session_clients::{is_interacting, is_owing};
use xsmp_messages::XsmpMessage;

/// What a message of the manager's is to a client that may answer late.
#[derive(Clone, Copy, Debug)]
pub enum Order {
    /// SaveYourself.
    Saves(Wanted),
    /// Interact.
    GivesToken,
    /// ShutdownCancelled.
    CallsOff,
    /// SaveComplete.
    Completes,
    /// Any other.
    Other,
}

fn order_of(message: &XsmpMessage) -> Order
    ensures { result ≡ of.order_of message.now }
{
    match message {
        XsmpMessage::SaveYourself {
            kind,
            shutdown,
            style,
            fast,
        } => Order::Saves(Wanted {
            only: None,
            from: None,
            kind: *kind,
            shutdown: *shutdown,
            style: *style,
            fast: *fast,
        }),
        XsmpMessage::Interact => Order::GivesToken,
        XsmpMessage::ShutdownCancelled => Order::CallsOff,
        XsmpMessage::SaveComplete => Order::Completes,
        _ => Order::Other,
    }
}

/// What is done about the SaveYourself of a logout that comes into the dialog of an older one.
fn pose(dialog: Option<Dialog>, late: Late) -> Outcome
    ensures { result ≡ of.pose dialog late }
{
    match dialog {
        Some(dialog) => {
            let posing = Late {
                save: Save::Held,
                posing: true,
                ..late
            };
            Outcome::spoken(Outgoing::NoBytes, Word::AsksFor(dialog), posing)
        }
        None => late.hold(),
    }
}

impl Late {
    /// Its SaveYourself is kept back.
    fn hold(self) -> Outcome
        ensures { result ≡ of.hold self }
    {
        let held = Late {
            save: Save::Held,
            ..self
        };
        Outcome::silent(Outgoing::NoBytes, held)
    }

    /// Its SaveYourself is answered in its place.
    fn hide(self) -> Outcome
        ensures { result ≡ of.hide self }
    {
        let hidden = Late {
            save: Save::Hidden,
            ..self
        };
        Outcome::spoken(Outgoing::NoBytes, Word::Failed, hidden)
    }

    /// It is asked to save while answers to an older save may come.
    fn asked_wary(self, wanted: Wanted) -> Outcome
        ensures { result ≡ of.asked_wary self.debt wanted self }
    {
        match self.debt {
            Debt::Paid => Outcome::silent(Outgoing::BehindPing, self.pinged()),
            Debt::Waits => Outcome::silent(Outgoing::BehindPing, self.pinged()),
            Debt::Talks if wanted.shutdown => pose(allowed_dialog(wanted.style), self),
            Debt::Talks => self.hide(),
            Debt::Works if wanted.shutdown => self.hold(),
            Debt::Works => self.hide(),
        }
    }

    /// It is asked to save.
    fn asked(self, wanted: Wanted) -> Outcome
        ensures { result ≡ of.asked wanted self }
    {
        let begun = Late {
            wanted: Some(wanted),
            save: Save::Shown,
            saved: false,
            ..self
        };
        if self.wary {
            begun.asked_wary(wanted)
        } else {
            Outcome::as_it_came(begun)
        }
    }

    /// Whether the token that was asked for in its place goes back.
    fn gives_back(self) -> bool
        ensures { result ≡ of.gives_back self }
    {
        self.posing && is_interacting(self.phase) && !self.debt.is_dialog()
    }

    /// Whether the SaveYourself that was kept back goes out.
    fn goes_out(self) -> bool
        ensures { result ≡ of.goes_out self }
    {
        self.save.is_held() && !self.posing && self.debt.is_idle()
    }

    /// What is done where nothing is asked for in its place any more.
    fn freed(self, word: Option<Word>) -> Outcome
        ensures { result ≡ of.freed word self }
    {
        if self.goes_out() {
            Outcome {
                outgoing: Outgoing::HeldSave,
                word,
                late: self.pinged(),
            }
        } else {
            Outcome {
                outgoing: Outgoing::NoBytes,
                word,
                late: self,
            }
        }
    }

    /// What is done once it owes something else, or has the token.
    pub(crate) fn settled(self) -> Outcome
        ensures { result ≡ of.settled self }
    {
        if self.gives_back() {
            let over = Late {
                posing: false,
                ..self
            };
            over.speaking(Word::TalkOver).freed(Some(Word::TalkOver))
        } else {
            self.freed(None)
        }
    }

    /// It has the token.
    fn with_token(self) -> Outcome
        ensures { result ≡ of.with_token self }
    {
        if self.posing {
            self.settled()
        } else {
            Outcome::as_it_came(self)
        }
    }

    /// Its logout is called off, and it owes this.
    fn owing(self, debt: Debt) -> Late
        ensures { result ≡ of.owing debt self }
    {
        Late {
            debt,
            wary: true,
            answered: false,
            left: 2000,
            ..self
        }
    }

    /// Its logout is called off, and it owes nothing: it had answered, or wasn't asked.
    fn owing_nothing(self, was_done: bool) -> Late
        ensures { result ≡ of.owing_nothing was_done self }
    {
        Late {
            wary: was_done || self.wary,
            lately: if was_done && self.saved {
                2000
            } else {
                self.lately
            },
            ..self
        }
    }

    /// Its logout, of which it was asked, is called off in a phase in which it owes this.
    fn called_off_owing(self, debt: Debt, was_done: bool) -> Outcome
        ensures { result ≡ of.called_off_owing debt was_done self }
    {
        match debt {
            Debt::Paid => Outcome::as_it_came(self.owing_nothing(was_done)),
            Debt::Talks => {
                Outcome::spoken(Outgoing::Itself, Word::Failed, self.owing(Debt::Talks))
            }
            Debt::Works => Outcome::as_it_came(self.owing(Debt::Works)),
            Debt::Waits => Outcome::as_it_came(self.owing(Debt::Waits)),
        }
    }

    /// Its logout is called off, of which it doesn't know.
    fn called_off_unseen(self) -> Outcome
        ensures { result ≡ of.called_off_unseen self }
    {
        let unseen = Late {
            save: Save::Shown,
            posing: false,
            ..self
        };
        Outcome::spoken(Outgoing::NoBytes, Word::Failed, unseen)
    }

    /// Its logout is called off.
    fn called_off(self, message: &XsmpMessage) -> Outcome
        ensures { result ≡ of.called_off message.now self }
    {
        let given = self.given(message);
        if self.save.is_held() {
            given.called_off_unseen()
        } else {
            given.called_off_owing(debt_at(self.phase), is_done(self.phase))
        }
    }

    /// Its round is complete.
    fn completed(self) -> Outcome
        ensures { result ≡ of.completed self }
    {
        if self.save.is_hidden() {
            Outcome::silent(
                Outgoing::NoBytes,
                Late {
                    save: Save::Shown,
                    ..self
                },
            )
        } else {
            Outcome::as_it_came(self)
        }
    }

    /// What is done about a message that the manager sends to the client.
    pub fn told(self, message: &XsmpMessage) -> Outcome
        ensures { result ≡ of.told message.now self }
    {
        match order_of(message) {
            Order::Saves(wanted) => self.given(message).asked(wanted),
            Order::GivesToken => self.given(message).with_token(),
            Order::CallsOff => self.called_off(message),
            Order::Completes => self.given(message).completed(),
            Order::Other => Outcome::as_it_came(self.given(message)),
        }
    }

    /// What is done as so many milliseconds pass.
    pub fn passed(self, milliseconds: u64) -> Outcome
        ensures { result ≡ of.passed milliseconds self }
    {
        let later = Late {
            left: self.left.saturating_sub(milliseconds),
            lately: self.lately.saturating_sub(milliseconds),
            ..self
        };
        if is_owing(self.phase) && later.left == 0 {
            Outcome::spoken(Outgoing::NoBytes, Word::Failed, later)
        } else {
            Outcome::silent(Outgoing::NoBytes, later)
        }
    }
}
