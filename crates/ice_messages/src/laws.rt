ghost use Rattle.std.specs.Prelude.{◌≡◌, ◌≢◌, ◌≤◌, ◌<◌, ◌+◌, ◌*◌, ◌↔◌, ℕ, List, length, drop, Ok, Err};
ghost use Rattle.ice_values.specs.Numbers.{number};
ghost use Rattle.ice_values.specs.Reading.{IsBytes};
ghost use Rattle.ice_values.specs.Frames.{cut_refusal};
ghost use Rattle.ice_values.specs.declared.numbers.Endian.{Endian as AnyEndian};
ghost use Rattle.ice_values.specs.declared.refusals.DecodeRefusal.{DecodeRefusal};
ghost use Rattle.ice_messages.specs.Messages.{minor_of, IsIceFrame, IsMessage, Spells, Refused, canon};
ghost use Rattle.ice_messages.specs.Reading.{decode_at};
ghost use Rattle.ice_messages.specs.declared.message.IceMessage.{IceMessage as AnyMessage};

use crate::LAST_ICE_MINOR;

/// Does nothing: its contract is a law of `decode_ice`. Decoding a frame gives a message exactly where
/// the frame spells it. Each refusal has its cause, and none of them is want of memory.
pub fn decoding_is_exact()
    ensures message { (e : AnyEndian) (bytes : List ℕ) (message : AnyMessage) → IsIceFrame e bytes →
        (decode_at e bytes ≡ Ok message) ↔ Spells e message bytes }
    ensures refusal { (e : AnyEndian) (bytes : List ℕ) (refusal : DecodeRefusal) →
        IsIceFrame e bytes → decode_at e bytes ≡ Err refusal → Refused e bytes refusal }
    ensures memory { (e : AnyEndian) (bytes : List ℕ) → IsIceFrame e bytes →
        decode_at e bytes ≢ Err DecodeRefusal.NoMemory }
{}

/// Does nothing: its contract is a law of `encode_ice` and `decode_ice`. What encodes a message is
/// decoded as this message.
pub fn an_encoded_message_is_decoded()
    ensures { (e : AnyEndian) (message : AnyMessage) → IsMessage message →
        decode_at e (canon e message) ≡ Ok message }
{}

/// Does nothing: its contract is a law of refusals. Bytes that have fewer units than they state, as
/// a header alone, spell no message. Which refusal answers them is told by the minor opcode, and
/// the messages have those from 0 to the last.
pub fn cut_bytes_are_refused()
    ensures minors { (n : ℕ) → (n ≤ LAST_ICE_MINOR)
        ↔ ((message : AnyMessage) × (minor_of message ≡ n)) }
    ensures refused { (e : AnyEndian) (bytes : List ℕ) → IsBytes bytes →
        length bytes < 8 + 8 * number e 4 (drop 4 bytes) →
        Refused e bytes (cut_refusal LAST_ICE_MINOR bytes) }
{}
