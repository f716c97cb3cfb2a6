ghost use Rattle.std.specs.Prelude.{◌≡◌, IfOk};
ghost use Rattle.frame_speech.specs.Speech.{reading as reading_by, after as after_reading, says, is_said as said_by};

use crate::reading::{Reading, byte_at, greeting_in, is_whole, opening_in, setting_in};
use ice_framing::WholeFrame;
use owned_lists::NoMemory;
use std::alloc::Global;

/// How far one party's stream is understood.
#[derive(Clone, Copy, Debug, PartialEq, Eq)]
pub enum Speech {
    /// It hasn't said its ByteOrder.
    Silent,
    /// It has, and XSMP isn't opened yet.
    Greeted,
    /// It sends the messages of XSMP under this major opcode.
    Speaks(u8),
    /// Something wasn't understood, and what came behind it isn't looked at.
    Lost,
}

impl Speech {
    /// What the next frame says.
    pub fn reading(self, alloc: Global, frame: &WholeFrame) -> Result<Reading, NoMemory>
        ensures { IfOk result (λ reading. reading ≡ reading_by self frame.now) }
    {
        if !is_whole(frame) {
            return Ok(Reading::Unread);
        }
        match self {
            Speech::Silent => Ok(greeting_in(frame)),
            Speech::Greeted => opening_in(alloc, frame),
            Speech::Speaks(opcode) => setting_in(alloc, opcode, frame),
            Speech::Lost => Ok(Reading::Nothing),
        }
    }

    /// How far the stream is understood behind a frame that says this.
    pub fn after(self, reading: &Reading) -> Speech
        ensures { result ≡ after_reading self reading.now }
    {
        match reading {
            Reading::Nothing => self,
            Reading::Greets => Speech::Greeted,
            Reading::Opens(opcode) => Speech::Speaks(*opcode),
            Reading::Sets(_) => self,
            Reading::Unread => Speech::Lost,
        }
    }

    /// Whether the bytes of a frame are a message of XSMP of this minor opcode.
    pub fn says(self, minor: u8, bytes: &[u8]) -> bool
        ensures { result ≡ says self minor bytes.now }
    {
        match self {
            Speech::Silent => false,
            Speech::Greeted => false,
            Speech::Speaks(opcode) => byte_at(bytes, 0) == opcode && byte_at(bytes, 1) == minor,
            Speech::Lost => false,
        }
    }

    /// Whether a frame is a message of XSMP of this minor opcode.
    pub fn is_said(self, minor: u8, frame: &WholeFrame) -> bool
        ensures { result ≡ said_by self minor frame.now }
    {
        self.says(minor, frame.bytes.as_slice())
    }
}
