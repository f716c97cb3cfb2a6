ghost use Rattle.std.specs.Prelude.{◌≡◌};
ghost use Rattle.client_quirks.specs.Leaving.{asked_by, is_last, over, told, answered_by, closing, heard, holding, is_kept};

use frame_speech::{Speech, byte_at};
use ice_framing::WholeFrame;

/// How far a logout has come for one client.
#[derive(Clone, Copy, Debug, PartialEq, Eq)]
pub enum Stage {
    /// It owes nothing to a logout.
    Free,
    /// It was asked to save itself for one.
    Asked,
    /// It has answered that it is saved.
    Answered,
    /// It has closed since; that is held back.
    Kept,
    /// What was held back is handed on, as all that comes.
    Released,
}

fn is_last(speech: Speech, frame: &WholeFrame) -> bool
    ensures { result ≡ is_last speech frame.now }
{
    speech.is_said(9, frame) || speech.is_said(10, frame) || speech.is_said(18, frame)
}

impl Stage {
    fn asked_by(self, frame: &WholeFrame) -> Stage
        ensures { result ≡ asked_by frame.now self }
    {
        let is_shutdown = byte_at(frame.bytes.as_slice(), 9) == 1;
        match self {
            Stage::Kept => Stage::Kept,
            Stage::Released => Stage::Released,
            Stage::Free if is_shutdown => Stage::Asked,
            Stage::Asked if is_shutdown => Stage::Asked,
            Stage::Answered if is_shutdown => Stage::Asked,
            Stage::Free => Stage::Free,
            Stage::Asked => Stage::Free,
            Stage::Answered => Stage::Free,
        }
    }

    fn over(self) -> Stage
        ensures { result ≡ over self }
    {
        match self {
            Stage::Free => Stage::Free,
            Stage::Asked => Stage::Free,
            Stage::Answered => Stage::Free,
            Stage::Kept => Stage::Released,
            Stage::Released => Stage::Released,
        }
    }

    /// The stage behind a frame that the manager sends.
    pub fn told(self, speech: Speech, frame: &WholeFrame) -> Stage
        ensures { result ≡ told speech self frame.now }
    {
        if speech.is_said(3, frame) {
            self.asked_by(frame)
        } else if is_last(speech, frame) {
            self.over()
        } else {
            self
        }
    }

    fn answered_by(self, frame: &WholeFrame) -> Stage
        ensures { result ≡ answered_by frame.now self }
    {
        match self {
            Stage::Asked if byte_at(frame.bytes.as_slice(), 2) == 1 => Stage::Answered,
            Stage::Asked => Stage::Free,
            Stage::Free => Stage::Free,
            Stage::Answered => Stage::Answered,
            Stage::Kept => Stage::Kept,
            Stage::Released => Stage::Released,
        }
    }

    /// The stage once the client closes.
    pub fn closing(self) -> Stage
        ensures { result ≡ closing self }
    {
        match self {
            Stage::Answered => Stage::Kept,
            Stage::Free => Stage::Free,
            Stage::Asked => Stage::Asked,
            Stage::Kept => Stage::Kept,
            Stage::Released => Stage::Released,
        }
    }

    /// The stage where the client's end is to be held back.
    pub fn holding(self) -> Stage
        ensures { result ≡ holding self }
    {
        match self {
            Stage::Free => Stage::Answered,
            Stage::Asked => Stage::Answered,
            Stage::Answered => Stage::Answered,
            Stage::Kept => Stage::Kept,
            Stage::Released => Stage::Released,
        }
    }

    /// The stage behind a frame that the client says.
    pub fn heard(self, speech: Speech, frame: &WholeFrame) -> Stage
        ensures { result ≡ heard speech self frame.now }
    {
        if speech.is_said(8, frame) {
            self.answered_by(frame)
        } else if speech.is_said(11, frame) {
            self.closing()
        } else {
            self
        }
    }

    /// Whether the client's end is held back.
    pub fn is_kept(self) -> bool
        ensures { result ≡ is_kept self }
    {
        match self {
            Stage::Kept => true,
            Stage::Free => false,
            Stage::Asked => false,
            Stage::Answered => false,
            Stage::Released => false,
        }
    }
}
