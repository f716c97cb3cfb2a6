ghost use Rattle.std.specs.Prelude.{◌≡◌, ◌≤◌, ◌<◌, ◌^◌, ◌++◌, [], length, OnOk};
ghost use Rattle.ice_values.specs.Cells.{zeros, free, byte};
ghost use Rattle.ice_values.specs.Numbers.{number_bytes, card16, card32};
ghost use Rattle.ice_values.specs.Fields.{proof_data, error_body};
ghost use Rattle.ice_values.specs.Writing.{Extends};

use crate::{Endian, Enumerated, ErrorBody};
use byteorder::{BigEndian, ByteOrder, LittleEndian};
use owned_lists::{NoMemory, Octets};

const ZEROS: [u8; 8] = [0; 8];

/// Adds bytes at the end.
pub fn put_bytes(bytes: &[u8], out: &mut Octets) -> Result<(), NoMemory>
    ensures ok { OnOk result (out.new ≡ out.old ++ bytes.now) }
    ensures kept { Extends out.old out.new }
{
    out.append(bytes)
}

/// Adds so many zeros.
pub fn put_zeros(count: usize, out: &mut Octets) -> Result<(), NoMemory>
    requires { count ≤ 8 }
    ensures ok { OnOk result (out.new ≡ out.old ++ zeros (free count)) }
    ensures kept { Extends out.old out.new }
{
    let (zeros, _) = ZEROS.split_at(count);
    put_bytes(zeros, out)
}

/// Adds a CARD16.
pub fn put_card16(endian: Endian, number: u16, out: &mut Octets) -> Result<(), NoMemory>
    ensures ok { OnOk result (out.new ≡ out.old ++ number_bytes endian 2 number) }
    ensures kept { Extends out.old out.new }
{
    let mut bytes = [0; 2];
    match endian {
        Endian::Lsb => LittleEndian::write_u16(&mut bytes, number),
        Endian::Msb => BigEndian::write_u16(&mut bytes, number),
    }
    put_bytes(&bytes, out)
}

/// Adds a CARD32.
pub fn put_card32(endian: Endian, number: u32, out: &mut Octets) -> Result<(), NoMemory>
    ensures ok { OnOk result (out.new ≡ out.old ++ number_bytes endian 4 number) }
    ensures kept { Extends out.old out.new }
{
    let mut bytes = [0; 4];
    match endian {
        Endian::Lsb => LittleEndian::write_u32(&mut bytes, number),
        Endian::Msb => BigEndian::write_u32(&mut bytes, number),
    }
    put_bytes(&bytes, out)
}

/// Adds the data of an authentication.
pub fn put_proof_data(endian: Endian, data: &[u8], out: &mut Octets) -> Result<(), NoMemory>
    requires { length «data».now < 2 ^ 16 }
    ensures ok { OnOk result (out.new ≡ out.old ++ zeros (proof_data endian «data».now)) }
    ensures kept { Extends out.old out.new }
{
    put_card16(endian, data.len() as u16, out)?;
    put_zeros(6, out)?;
    put_bytes(data, out)
}

fn put_error_parts(
    endian: Endian,
    head: [u8; 4],
    sequence: u32,
    values: &[u8],
    out: &mut Octets,
) -> Result<(), NoMemory>
    ensures ok { OnOk result
        (out.new ≡ out.old ++ (head ++ number_bytes endian 4 sequence ++ values.now)) }
    ensures kept { Extends out.old out.new }
{
    put_bytes(&head, out)?;
    put_card32(endian, sequence, out)?;
    put_bytes(values, out)
}

/// Adds the body of an Error.
pub fn put_error(endian: Endian, error: &ErrorBody, out: &mut Octets) -> Result<(), NoMemory>
    ensures ok { OnOk result (out.new ≡ out.old ++ zeros (error_body byte endian error.now)) }
    ensures kept { Extends out.old out.new }
{
    let head = [error.minor, error.severity.number(), 0, 0];
    put_error_parts(endian, head, error.sequence, error.values.as_slice(), out)
}
