ghost use Rattle.std.specs.Prelude.{◌≡◌, ◌≤◌, false, [], length, None, IfSome, IsTrue};
ghost use Rattle.ice_framing.specs.declared.cutting.WholeFrame.{WholeFrame};
ghost use Rattle.ice_values.specs.declared.numbers.Endian.{Endian as AnyEndian};
ghost use Rattle.ice_framing.specs.Frames.{has_frame};
ghost use Rattle.frame_speech.specs.Passing.{from, IsFront, ComesAlone, Passes, SaysNothing, may_say, is_alone as is_alone_by};

use crate::Speech;
use crate::reading::byte_at;
use ice_framing::UNIT_LIMIT;
use ice_values::{Endian, read_card32};

/// Who looks for some frames of a stream, and has nothing to do with any other.
pub trait Heeds {
    ghost ignores: { Self → WholeFrame → Type 0 };

    /// Whether a frame may be one of those.
    fn heeds(&self, endian: Endian, frame: &[u8]) -> bool
        requires { 8 ≤ length frame.now }
        ensures { result ≡ false → ignores self.now
            (record { endian = endian; bytes = frame.now }) };
}

/// Whether a frame may say something of its sender.
pub fn may_say(speech: Speech, frame: &[u8]) -> bool
    ensures { (e : AnyEndian) → result ≡ may_say speech (record { endian = e; bytes = frame.now }) }
{
    match speech {
        Speech::Silent => true,
        Speech::Greeted => true,
        Speech::Speaks(opcode) => byte_at(frame, 0) == opcode && byte_at(frame, 1) == 12,
        Speech::Lost => false,
    }
}

/// What may say something of its sender.
impl Heeds for Speech {
    ghost ignores = { λ speech frame. SaysNothing speech frame };

    fn heeds(&self, _endian: Endian, frame: &[u8]) -> bool {
        may_say(*self, frame)
    }
}

/// How many bytes the frame at the front has, which isn't the first of its stream. None where it isn't
/// whole or states too much.
fn front_len(endian: Endian, bytes: &[u8]) -> Option<usize>
    ensures front { IfSome result (λ len. IsFront (from endian bytes.now) len) }
    ensures within { IfSome result (λ len. len ≤ length bytes.now) }
    ensures none { result ≡ None → has_frame (from endian bytes.now) ≡ false }
{
    if bytes.len() < 8 {
        return None;
    }
    let (_, stated) = bytes.split_at(4);
    let units = read_card32(endian, stated);
    if units > UNIT_LIMIT {
        return None;
    }
    let len = 8 + 8 * units as usize;
    if len <= bytes.len() { Some(len) } else { None }
}

/// Whether these bytes are one whole frame, where the stream stands between two frames.
pub fn is_alone(endian: Endian, bytes: &[u8]) -> bool
    ensures comes { IsTrue result → ComesAlone endian bytes.now (from endian []) }
    ensures is { result ≡ is_alone_by endian bytes.now }
{
    match front_len(endian, bytes) {
        Some(len) => len == bytes.len(),
        None => false,
    }
}

/// Whether these bytes are whole frames, none of which is heeded, where the stream stands between two
/// frames.
pub fn are_passed<H: Heeds>(heeds: &H, endian: Endian, bytes: &[u8]) -> bool
    ensures { IsTrue result → Passes (H.ignores heeds.now) (from endian []) bytes.now }
{
    let mut rest = bytes;
    while let Some(len) = front_len(endian, rest) {
        let (frame, left) = rest.split_at(len);
        if heeds.heeds(endian, frame) {
            return false;
        }
        rest = left;
    }
    rest.is_empty()
}
