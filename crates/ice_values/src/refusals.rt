ghost use Rattle.std.specs.Prelude.{◌≡◌};
ghost use Rattle.ice_values.specs.declared.refusals.DecodeRefusal.TheVariants.{NoMemory as NoMemoryToDecode};
ghost use Rattle.ice_values.specs.declared.refusals.ValueRefusal.TheVariants.{NoMemory as NoMemoryForValue};
ghost use Rattle.ice_values.specs.declared.refusals.EncodeRefusal.TheVariants.{NoMemory as NoMemoryToEncode};

use owned_lists::NoMemory;

/// Why a value can't be read or made.
#[derive(Clone, Copy, Debug, PartialEq, Eq)]
pub enum ValueRefusal {
    /// There are more bytes than the value can hold.
    TooLong,
    /// No front of the bytes spells a value.
    Short,
    NoMemory,
}

/// No front of the bytes spells a value.
#[derive(Clone, Copy, Debug, PartialEq, Eq)]
pub struct Short;

/// Why bytes are no message.
#[derive(Clone, Copy, Debug, PartialEq, Eq)]
pub enum DecodeRefusal {
    /// No message has this minor opcode.
    BadMinor,
    /// The bytes can't be cut into the message's parts.
    BadLength,
    /// The byte at this offset from the message's start, the first of so many, has no meaning.
    BadValue { at: u32, len: u32 },
    NoMemory,
}

/// Why a message has no spelling.
#[derive(Clone, Copy, Debug, PartialEq, Eq)]
pub enum EncodeRefusal {
    /// A part or the whole body is larger than its limit.
    TooLong,
    NoMemory,
}

impl From<NoMemory> for ValueRefusal {
    ghost from_gives = { λ _ refusal. refusal ≡ NoMemoryForValue };

    fn from(_error: NoMemory) -> ValueRefusal {
        ValueRefusal::NoMemory
    }
}

impl From<NoMemory> for DecodeRefusal {
    ghost from_gives = { λ _ refusal. refusal ≡ NoMemoryToDecode };

    fn from(_error: NoMemory) -> DecodeRefusal {
        DecodeRefusal::NoMemory
    }
}

impl From<NoMemory> for EncodeRefusal {
    ghost from_gives = { λ _ refusal. refusal ≡ NoMemoryToEncode };

    fn from(_error: NoMemory) -> EncodeRefusal {
        EncodeRefusal::NoMemory
    }
}

impl From<ValueRefusal> for DecodeRefusal {
    ghost use Rattle.ice_values.specs.Frames.{refusal_of};

    ghost from_gives = { λ value refusal. refusal ≡ refusal_of value };

    fn from(value: ValueRefusal) -> DecodeRefusal {
        match value {
            ValueRefusal::TooLong | ValueRefusal::Short => DecodeRefusal::BadLength,
            ValueRefusal::NoMemory => DecodeRefusal::NoMemory,
        }
    }
}
