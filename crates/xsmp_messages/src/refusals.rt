ghost use Rattle.std.specs.Prelude.{◌≡◌, ◌≢◌};
ghost use Rattle.ice_values.specs.declared.refusals.DecodeRefusal.TheVariants.{NoMemory as NoMemoryToDecode};
ghost use Rattle.xsmp_messages.specs.Refusals.{as_decoding};

use ice_values::DecodeRefusal;

/// Why a frame is no message. It is found without memory.
#[derive(Clone, Copy, Debug, PartialEq, Eq)]
pub enum ViewRefusal {
    /// No message has this minor opcode.
    BadMinor,
    /// The bytes can't be cut into the message's parts.
    BadLength,
    /// The byte at this offset from the message's start, the first of so many, has no meaning.
    BadValue { at: u32, len: u32 },
}

/// The same refusal of a call that takes no memory.
pub fn without_memory(refusal: DecodeRefusal) -> ViewRefusal
    requires { refusal ≢ NoMemoryToDecode }
    ensures { as_decoding result ≡ refusal }
{
    match refusal {
        DecodeRefusal::BadMinor => ViewRefusal::BadMinor,
        DecodeRefusal::BadLength => ViewRefusal::BadLength,
        DecodeRefusal::BadValue { at, len } => ViewRefusal::BadValue { at, len },
        DecodeRefusal::NoMemory => unreachable!(),
    }
}
