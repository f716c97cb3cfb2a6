ghost use Rattle.std.specs.Prelude.{◌≡◌, ◌≤◌, ◌+◌, length};
ghost use Rattle.display_messages.specs.Places.{short_at, long_at};

use ice_values::{Endian, read_card16, read_card32};

/// The number of two bytes at a place.
pub(crate) fn read_short(bytes: &[u8], at: usize) -> u16
    requires { at + 2 ≤ length bytes.now }
    ensures { result ≡ short_at at bytes.now }
{
    let (_, rest) = bytes.split_at(at);
    read_card16(Endian::Lsb, rest)
}

/// The number of four bytes at a place.
pub(crate) fn read_long(bytes: &[u8], at: usize) -> u32
    requires { at + 4 ≤ length bytes.now }
    ensures { result ≡ long_at at bytes.now }
{
    let (_, rest) = bytes.split_at(at);
    read_card32(Endian::Lsb, rest)
}
