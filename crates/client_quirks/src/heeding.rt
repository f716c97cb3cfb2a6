ghost use Rattle.std.specs.Prelude.{◌≡◌, ◌≤◌, length};
ghost use Rattle.client_quirks.specs.Heeding.{is_answer, is_logout, is_turn, may_mean, may_answer, MeansNothing, AnswersNothing, AsksNothing};

use crate::stage::Stage;
use crate::views::sets_amended;
use frame_speech::{Heeds, Speech, byte_at};
use ice_values::Endian;

/// Looks for what a client says otherwise than it means it.
#[derive(Clone, Copy, Debug)]
pub struct Meant {
    pub speech: Speech,
}

/// Looks for what a client says of a logout.
#[derive(Clone, Copy, Debug)]
pub struct Heard {
    pub speech: Speech,
    pub stage: Stage,
}

/// Looks for what the manager says of a logout.
#[derive(Clone, Copy, Debug)]
pub struct Told {
    pub speech: Speech,
    pub stage: Stage,
}

fn is_answer(speech: Speech, frame: &[u8]) -> bool
    ensures { result ≡ is_answer speech frame.now }
{
    speech.says(8, frame) || speech.says(11, frame)
}

fn is_logout(speech: Speech, frame: &[u8]) -> bool
    ensures { result ≡ is_logout speech frame.now }
{
    speech.says(3, frame) && byte_at(frame, 9) == 1
}

/// Whether a frame of the manager's begins a logout or ends one.
fn is_turn(speech: Speech, frame: &[u8]) -> bool
    ensures { result ≡ is_turn speech frame.now }
{
    speech.says(3, frame)
        || speech.says(9, frame)
        || speech.says(10, frame)
        || speech.says(18, frame)
}

/// Whether a frame may be handed on otherwise than it came, or changes how its sender is understood.
pub fn may_mean(speech: Speech, endian: Endian, frame: &[u8]) -> bool
    requires { 8 ≤ length frame.now }
    ensures { result ≡ may_mean speech (record { endian = endian; bytes = frame.now }) }
{
    if !speech.heeds(endian, frame) {
        return false;
    }
    match speech.settings(endian, frame) {
        Some(walk) => sets_amended(walk),
        None => speech.may_turn(endian, frame),
    }
}

/// Whether a frame may change what is known of a logout, or how its sender is understood.
fn may_answer(heard: Heard, endian: Endian, frame: &[u8]) -> bool
    requires { 8 ≤ length frame.now }
    ensures { result ≡ may_answer heard.speech heard.stage
        (record { endian = endian; bytes = frame.now }) }
{
    let speech = heard.speech;
    let turns = speech.may_turn(endian, frame);
    match heard.stage {
        Stage::Free => turns,
        Stage::Asked => turns || is_answer(speech, frame),
        Stage::Answered => turns || is_answer(speech, frame),
        Stage::Kept => turns || is_answer(speech, frame),
        Stage::Released => turns || is_answer(speech, frame),
    }
}

impl Heeds for Meant {
    ghost ignores = { λ meant frame. MeansNothing meant.speech frame };

    fn heeds(&self, endian: Endian, frame: &[u8]) -> bool {
        may_mean(self.speech, endian, frame)
    }
}

impl Heeds for Heard {
    ghost ignores = { λ heard frame. AnswersNothing heard.speech heard.stage frame };

    fn heeds(&self, endian: Endian, frame: &[u8]) -> bool {
        may_answer(*self, endian, frame)
    }
}

impl Heeds for Told {
    ghost ignores = { λ told frame. AsksNothing told.speech told.stage frame };

    fn heeds(&self, endian: Endian, frame: &[u8]) -> bool {
        let speech = self.speech;
        let says = speech.heeds(endian, frame);
        match self.stage {
            Stage::Free => says || is_logout(speech, frame),
            Stage::Asked => says || is_turn(speech, frame),
            Stage::Answered => says || is_turn(speech, frame),
            Stage::Kept => says || is_turn(speech, frame),
            Stage::Released => says || is_turn(speech, frame),
        }
    }
}
