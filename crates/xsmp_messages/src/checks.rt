ghost use Rattle.std.specs.Prelude.{◌≡◌, ◌≤◌, length};
ghost use Rattle.ice_values.specs.Frames.{body_at, is_read};
ghost use Rattle.ice_values.specs.Properties.{array8_list_at, property_list_at};
ghost use Rattle.ice_values.specs.Reading.{nothing_at};
ghost use Rattle.ice_values.specs.declared.numbers.Endian.{Endian as AnyEndian};
ghost use Rattle.xsmp_messages.specs.Messages.{IsFrame};
ghost use Rattle.xsmp_messages.specs.Reading.{save_yourself_at, save_yourself_request_at, xsmp_error_at, decode_at};

use crate::decoding::unit_body;
use ice_values::{
    Array8, Array8List, DecodeRefusal, Dialog, Endian, PropertyList, SaveKind, SaveStyle, Severity,
    check_body, no_body, value_at,
};

#[tactic(auto, unfolding(ice_values::specs::Frames::error_at, crate::specs::Reading::xsmp_error_at))]
fn check_error(frame: &[u8]) -> Result<(), DecodeRefusal>
    ensures { (e : AnyEndian) → result ≡ is_read (xsmp_error_at e frame.now) }
{
    if frame.len() < 16 {
        return Err(DecodeRefusal::BadLength);
    }
    value_at::<Severity>(frame, 9)?;
    Ok(())
}

#[tactic(auto, unfolding(crate::specs::Reading::save_yourself_at))]
fn check_save_yourself(frame: &[u8]) -> Result<(), DecodeRefusal>
    requires { 8 ≤ length frame.now }
    ensures { result ≡ is_read (save_yourself_at frame.now) }
{
    unit_body(frame)?;
    value_at::<SaveKind>(frame, 8)?;
    value_at::<bool>(frame, 9)?;
    value_at::<SaveStyle>(frame, 10)?;
    value_at::<bool>(frame, 11)?;
    Ok(())
}

#[tactic(auto, unfolding(crate::specs::Reading::save_yourself_request_at))]
fn check_save_yourself_request(frame: &[u8]) -> Result<(), DecodeRefusal>
    requires { 8 ≤ length frame.now }
    ensures { result ≡ is_read (save_yourself_request_at frame.now) }
{
    unit_body(frame)?;
    value_at::<SaveKind>(frame, 8)?;
    value_at::<bool>(frame, 9)?;
    value_at::<SaveStyle>(frame, 10)?;
    value_at::<bool>(frame, 11)?;
    value_at::<bool>(frame, 12)?;
    Ok(())
}

fn check_empty(frame: &[u8]) -> Result<(), DecodeRefusal>
    requires { 8 ≤ length frame.now }
    ensures { result ≡ is_read (body_at nothing_at frame.now) }
{
    no_body(frame)
}

fn check_texts(endian: Endian, frame: &[u8]) -> Result<(), DecodeRefusal>
    requires { 8 ≤ length frame.now }
    ensures { result ≡ is_read (body_at (array8_list_at endian) frame.now) }
{
    check_body::<Array8List>(endian, frame)
}

fn check_properties(endian: Endian, frame: &[u8]) -> Result<(), DecodeRefusal>
    requires { 8 ≤ length frame.now }
    ensures { result ≡ is_read (body_at (property_list_at endian) frame.now) }
{
    check_body::<PropertyList>(endian, frame)
}

/// Whether a frame spells a message, by its minor opcode.
#[tactic(auto, using(crate::proofs::ViewLaws::valued_read), unfolding(crate::specs::Reading::decode_at, crate::specs::Reading::flagged_at))]
pub fn check_minor(endian: Endian, frame: &[u8]) -> Result<(), DecodeRefusal>
    requires { IsFrame endian frame.now }
    ensures { result ≡ is_read (decode_at endian frame.now) }
{
    match frame[1] {
        0 => check_error(frame),
        1 | 2 => check_body::<Array8>(endian, frame),
        3 => check_save_yourself(frame),
        4 => check_save_yourself_request(frame),
        5 => {
            no_body(frame)?;
            value_at::<Dialog>(frame, 2)?;
            Ok(())
        }
        6 => check_empty(frame),
        7 | 8 => {
            no_body(frame)?;
            value_at::<bool>(frame, 2)?;
            Ok(())
        }
        9 => check_empty(frame),
        10 => check_empty(frame),
        11 => check_texts(endian, frame),
        12 => check_properties(endian, frame),
        13 => check_texts(endian, frame),
        14 => check_empty(frame),
        15 => check_properties(endian, frame),
        16 => check_empty(frame),
        17 => check_empty(frame),
        18 => check_empty(frame),
        _ => Err(DecodeRefusal::BadMinor),
    }
}
