ghost use Rattle.std.specs.Prelude.{◌≡◌, ◌++◌, IfOk, OnOk};
ghost use Rattle.checkpoint_records.specs.Rules.{client_id as id_text, hex8};

use byteorder::{BigEndian, ByteOrder};
use ice_values::Array8;
use owned_lists::{NoMemory, Octets};
use std::alloc::Global;

/// The ID of the new client with this number in the run of this epoch (XSMP, chapter 6): `smd-`,
/// the epoch, a dash and the number, each in eight lower-case hex digits.
pub fn client_id(alloc: Global, epoch: u32, number: u32) -> Result<Array8, NoMemory>
    ensures { IfOk result (λ id. id ≡ id_text epoch number) }
{
    let mut id = Octets::from_slice(alloc, b"smd-")?;
    put_hex8(alloc, &mut id, epoch)?;
    id.append(b"-")?;
    put_hex8(alloc, &mut id, number)?;
    Ok(id)
}

/// Adds a number in eight lower-case hex digits.
fn put_hex8(alloc: Global, out: &mut Octets, number: u32) -> Result<(), NoMemory>
    ensures { OnOk result (out.new ≡ out.old ++ hex8 number) }
{
    let mut bytes = [0; 4];
    BigEndian::write_u32(&mut bytes, number);
    let text = hex::encode(alloc, &bytes)?;
    out.append(text.as_bytes())
}
