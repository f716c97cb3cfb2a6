ghost use Rattle.std.specs.Prelude.{◌≡◌, ◌≤◌, ◌<◌, ◌+◌, ◌^◌, length};
ghost use Rattle.ice_values.specs.Cells.{pad_len};
ghost use Rattle.ice_values.specs.Numbers.{number};

use byteorder::{BigEndian, ByteOrder, LittleEndian};

/// The order in which a party writes the bytes of its numbers (ICE, chapter 5: ByteOrder).
#[derive(Clone, Copy, Debug, PartialEq, Eq)]
pub enum Endian {
    /// Least significant byte first.
    Lsb,
    /// Most significant byte first.
    Msb,
}

/// The CARD16 at the front.
pub fn read_card16(endian: Endian, bytes: &[u8]) -> u16
    requires { 2 ≤ length bytes.now }
    ensures { result ≡ number endian 2 bytes.now }
{
    match endian {
        Endian::Lsb => LittleEndian::read_u16(bytes),
        Endian::Msb => BigEndian::read_u16(bytes),
    }
}

/// The CARD32 at the front.
pub fn read_card32(endian: Endian, bytes: &[u8]) -> u32
    requires { 4 ≤ length bytes.now }
    ensures { result ≡ number endian 4 bytes.now }
{
    match endian {
        Endian::Lsb => LittleEndian::read_u32(bytes),
        Endian::Msb => BigEndian::read_u32(bytes),
    }
}

/// The least number of bytes that brings a length to a multiple of a unit.
pub fn pad(length: usize, unit: usize) -> usize
    requires { 0 < unit }
    ensures is { result ≡ pad_len length unit }
    ensures below { result < unit }
{
    (unit - length % unit) % unit
}
