ghost use Rattle.std.specs.Prelude.{◌≡◌, ◌%◌, ◌<◌, ◌^◌, length, IfOk};
ghost use Rattle.ice_setup.specs.Errors.{blame, opcode_values as opcode_spelling, text_values as text_spelling, wrong_byte};

use ice_values::{
    Endian, ErrorBody, ErrorClass, Severity, Text16, pad, put_bytes, put_card32, put_text16,
    put_zeros,
};
use owned_lists::{NoMemory, Octets};
use std::alloc::Global;

/// The message that an Error refuses.
#[derive(Clone, Copy, Debug, PartialEq, Eq)]
pub struct Offending {
    /// Its minor opcode.
    pub minor: u8,
    /// Its number among those of its sender, from 1 on.
    pub sequence: u32,
}

/// An Error with values that fill units of 8 bytes.
pub fn error_of(
    severity: Severity,
    class: ErrorClass,
    offending: Offending,
    values: Octets,
) -> ErrorBody
    requires { length values % 8 ≡ 0 }
    ensures { result ≡ blame severity class offending values }
{
    ErrorBody {
        class: class.number(),
        minor: offending.minor,
        severity,
        sequence: offending.sequence,
        values,
    }
}

/// The values of a BadMajor and of a MajorOpcodeDuplicate: the opcode, and zeros to a unit.
pub fn opcode_values(alloc: Global, opcode: u8) -> Result<Octets, NoMemory>
    ensures spelled { IfOk result (λ values. values ≡ opcode_spelling opcode) }
    ensures units { IfOk result (λ values. length values % 8 ≡ 0) }
{
    let mut values = Octets::new(alloc);
    put_bytes(&[opcode], &mut values)?;
    put_zeros(7, &mut values)?;
    Ok(values)
}

/// The values of an Error that names a text: a STRING, and zeros to a unit.
pub fn text_values(alloc: Global, text: &Text16) -> Result<Octets, NoMemory>
    ensures spelled { IfOk result (λ values. values ≡ text_spelling text.now) }
    ensures units { IfOk result (λ values. length values % 8 ≡ 0) }
{
    let mut values = Octets::new(alloc);
    put_text16(Endian::Lsb, text, &mut values)?;
    put_zeros(pad(values.len(), 8), &mut values)?;
    Ok(values)
}

/// The values of a BadValue for one byte: its place from the message's start, a length of 1, the
/// byte, and zeros to a unit. A place behind the end counts as a zero.
pub fn wrong_byte_values(alloc: Global, at: u32, frame: &[u8]) -> Result<Octets, NoMemory>
    ensures spelled { IfOk result (λ values. values ≡ wrong_byte at frame.now) }
    ensures units { IfOk result (λ values. length values % 8 ≡ 0) }
{
    let byte = frame.get(at as usize).copied().unwrap_or(0);
    let mut values = Octets::new(alloc);
    put_card32(Endian::Lsb, at, &mut values)?;
    put_card32(Endian::Lsb, 1, &mut values)?;
    put_bytes(&[byte], &mut values)?;
    put_zeros(7, &mut values)?;
    Ok(values)
}
