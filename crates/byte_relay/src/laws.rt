ghost use Rattle.std.specs.Prelude.{◌≡◌, ◌↔◌, IsTrue, false, List, ℕ, length, map, Some, None};
ghost use Rattle.ice_values.specs.Frames.{IsFrame};
ghost use Rattle.ice_values.specs.Reading.{IsBytes};
ghost use Rattle.ice_values.specs.declared.numbers.Endian.{Endian as AnyEndian};
ghost use Rattle.ice_framing.specs.Parts.{Whole};
ghost use Rattle.ice_framing.specs.declared.cutting.WholeFrame.{WholeFrame};
ghost use Rattle.ice_messages.specs.Messages.{Spells};
ghost use Rattle.ice_messages.specs.declared.message.IceMessage.TheVariants.{ByteOrder};
ghost use Rattle.byte_relay.specs.Orders.{is_byte_order};
ghost use Rattle.byte_relay.specs.Relaying.{passed};
ghost use Rattle.heard_events.specs.Brought.{IsPrefix};
ghost use Rattle.byte_relay.specs.Respelling.{respelled, IsUnspelled, ReadsTurned};
ghost use Rattle.byte_relay.specs.Sides.{EachSideGetsItsPart, OneSideGetsTheOther};

/// Does nothing: its contract is a law of `respell`. What was respelled is read in its own order as what
/// the frame said, and it is as long as the frame.
pub fn what_was_respelled_is_decoded()
    ensures read { (e : AnyEndian) (to : AnyEndian) (frame : List ℕ) (bytes : List ℕ) →
        IsFrame e frame → IsBytes frame → respelled e to frame ≡ Some bytes →
        ReadsTurned e to frame bytes }
    ensures length { (e : AnyEndian) (to : AnyEndian) (frame : List ℕ) (bytes : List ℕ) →
        IsFrame e frame → IsBytes frame → respelled e to frame ≡ Some bytes →
        length bytes ≡ length frame }
{}

/// Does nothing: its contract is a law of `respell`. There is nothing to append exactly where the frame
/// spells no message.
pub fn unspelled_frames_are_refused()
    ensures { (e : AnyEndian) (to : AnyEndian) (frame : List ℕ) → IsFrame e frame → IsBytes frame →
        (respelled e to frame ≡ None) ↔ IsUnspelled e frame }
{}

/// Does nothing: its contract is a law of `serve_relay`. What is passed on of some later frames of a
/// stream is the front of these frames as they are in the other order: one for each, in their order.
pub fn messages_are_passed_on_in_their_order()
    ensures { (to : AnyEndian) (frames : List WholeFrame) →
        IsPrefix (map Some (passed to false (map Whole frames)).messages)
        (map (λ frame. respelled frame.endian to frame.bytes) frames) }
{}

/// Does nothing: its contract is a law of `serve_relay`. What is taken for a ByteOrder is exactly what
/// spells one.
pub fn byte_orders_are_told_by_their_bytes()
    ensures { (e : AnyEndian) (frame : List ℕ) → IsFrame e frame → IsBytes frame →
        IsTrue (is_byte_order e frame) ↔ ((order : AnyEndian) × Spells e (ByteOrder order) frame) }
{}

/// Does nothing: its contract is a law of `serve_relay`. From where a pair is open on, what its one side
/// gets is a front of the messages that come from the other, in their order, each once and spelled anew.
pub fn one_side_gets_what_comes_from_the_other()
    ensures { OneSideGetsTheOther }
{}

/// Does nothing: its contract is a law of `serve_relay`. In a whole run each of a pair gets the relay's
/// order first, and then a front of the messages that come from the other, in their order, each once and
/// spelled anew; or nothing, where there was no place for the pair.
pub fn each_side_gets_its_part()
    ensures { EachSideGetsItsPart }
{}
