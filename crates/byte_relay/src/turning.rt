ghost use Rattle.std.specs.Prelude.{◌≡◌, ◌≤◌, ◌+◌, length, nat_lt};
ghost use Rattle.ice_values.specs.Numbers.{number};
ghost use Rattle.byte_relay.specs.Turning.{leading_in_ice, leading_in_xsmp, has_text as has_text_at, turned_number, turned_values, turned_error, turned_ice, turned_xsmp};

use byteorder::{BigEndian, ByteOrder, LittleEndian};
use ice_messages::IceMessage;
use ice_values::{Endian, ErrorBody, ErrorClass, read_card16, read_card32};
use owned_lists::Octets;
use xsmp_messages::XsmpMessage;

/// What leads the values of an Error, in the order of its message's numbers.
#[derive(Clone, Copy, Debug, PartialEq, Eq)]
pub enum Leading {
    /// Two CARD32: the place of the wrong bytes, and how many there are.
    Place,
    /// A STRING.
    Text,
    /// Bytes whose order is no number's.
    Bytes,
}

impl Leading {
    fn of_xsmp(class: u16) -> Leading
        ensures { result ≡ leading_in_xsmp class }
    {
        if class == ErrorClass::BadValue.number() {
            Leading::Place
        } else {
            Leading::Bytes
        }
    }

    fn of_ice(class: u16) -> Leading
        ensures { result ≡ leading_in_ice class }
    {
        if has_text(class) {
            Leading::Text
        } else {
            Leading::of_xsmp(class)
        }
    }
}

/// Whether a class of ICE's own has a STRING for its values.
fn has_text(class: u16) -> bool
    ensures { result ≡ has_text_at class }
{
    class == ErrorClass::SetupFailed.number()
        || class == ErrorClass::AuthenticationRejected.number()
        || class == ErrorClass::AuthenticationFailed.number()
        || class == ErrorClass::ProtocolDuplicate.number()
        || class == ErrorClass::UnknownProtocol.number()
}

/// Turns the CARD16 at the front.
fn turn_card16(endian: Endian, to: Endian, bytes: &mut Octets)
    requires { 2 ≤ length bytes.old }
    ensures { bytes.new ≡ turned_number endian to 2 0 bytes.old }
{
    let number = read_card16(endian, bytes.as_slice());
    let mut turned = [0; 2];
    match to {
        Endian::Lsb => LittleEndian::write_u16(&mut turned, number),
        Endian::Msb => BigEndian::write_u16(&mut turned, number),
    }
    bytes.overwrite(0, &turned);
}

/// Turns the CARD32 at a place.
fn turn_card32(endian: Endian, to: Endian, at: usize, bytes: &mut Octets)
    requires { at + 4 ≤ length bytes.old }
    ensures { bytes.new ≡ turned_number endian to 4 at bytes.old }
{
    let number = read_card32(endian, &bytes.as_slice()[at..]);
    let mut turned = [0; 4];
    match to {
        Endian::Lsb => LittleEndian::write_u32(&mut turned, number),
        Endian::Msb => BigEndian::write_u32(&mut turned, number),
    }
    bytes.overwrite(at, &turned);
}

/// Turns the place and the number of the wrong bytes, where both are there.
fn turn_place(endian: Endian, to: Endian, values: &mut Octets)
    ensures { values.new ≡ turned_values endian to Leading.Place values.old }
{
    if values.len() >= 8 {
        turn_card32(endian, to, 0, values);
        turn_card32(endian, to, 4, values);
    }
}

/// Whether values end within the STRING that leads them.
fn end_within_text(endian: Endian, values: &[u8]) -> bool
    ensures { result ≡ nat_lt (length values.now) (2 + number endian 2 values.now) }
{
    values.len() < 2 || values.len() - 2 < read_card16(endian, values) as usize
}

/// Turns the length of a STRING, where that many bytes follow it.
fn turn_text(endian: Endian, to: Endian, values: &mut Octets)
    ensures { values.new ≡ turned_values endian to Leading.Text values.old }
{
    if !end_within_text(endian, values.as_slice()) {
        turn_card16(endian, to, values);
    }
}

/// Turns what leads the values of an Error.
fn turn_values(endian: Endian, to: Endian, leading: Leading, values: &mut Octets)
    ensures { values.new ≡ turned_values endian to leading values.old }
{
    match leading {
        Leading::Place => turn_place(endian, to, values),
        Leading::Text => turn_text(endian, to, values),
        Leading::Bytes => {}
    }
}

fn turn_error(endian: Endian, to: Endian, leading: Leading, error: &mut ErrorBody)
    ensures { error.new ≡ turned_error endian to leading error.old }
{
    turn_values(endian, to, leading, &mut error.values);
}

/// Brings a message of ICE to say in one order what it says in another.
pub fn turn_ice(endian: Endian, to: Endian, message: &mut IceMessage)
    ensures { message.new ≡ turned_ice endian to message.old }
{
    match message {
        IceMessage::Error(error) => turn_error(endian, to, Leading::of_ice(error.class), error),
        _ => {}
    }
}

/// Brings a message of XSMP to say in one order what it says in another.
pub fn turn_xsmp(endian: Endian, to: Endian, message: &mut XsmpMessage)
    ensures { message.new ≡ turned_xsmp endian to message.old }
{
    match message {
        XsmpMessage::Error(error) => turn_error(endian, to, Leading::of_xsmp(error.class), error),
        _ => {}
    }
}
