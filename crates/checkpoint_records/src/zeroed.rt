ghost use Rattle.std.specs.Prelude.{◌≡◌, ◌≤◌, length, take, IfOk};
ghost use Rattle.std.specs.Option.{option_map};
ghost use Rattle.ice_values.specs.Cells.{zeros};
ghost use Rattle.ice_values.specs.Reading.{Exact};
ghost use Rattle.ice_values.specs.declared.numbers.Endian.TheVariants.{Lsb};
ghost use Rattle.checkpoint_records.specs.Finding.{Finds};

use ice_values::{BODY_LIMIT, Endian, Spelled, ValueRefusal};
use owned_lists::{NoMemory, Octets};
use std::alloc::Global;

/// The bytes up to a limit that no field of a book passes.
fn window(bytes: &[u8]) -> &[u8]
    ensures { result.now ≡ take 65536 bytes.now }
{
    match bytes.split_at_checked(BODY_LIMIT) {
        Some((window, _)) => window,
        None => bytes,
    }
}

/// The value at the front whose unused and padding bytes are zero, and what follows it: it is read,
/// spelled again and compared. No value of more than 65,536 bytes is found.
pub(crate) fn take_zeroed<T: Spelled>(
    alloc: Global,
    bytes: &[u8],
) -> Result<Option<(T, &[u8])>, NoMemory>
    requires { Exact (T.cells Lsb) T.is_spelled (T.front Lsb) }
    ensures { IfOk result (λ found.
        Finds (λ x. zeros (T.cells Lsb x)) (λ x. T.is_spelled x × (length (T.cells Lsb x) ≤ 65536))
        bytes.now (option_map (λ x. (x.0, x.1.now)) found)) }
{
    let value = match T::take(alloc, Endian::Lsb, window(bytes)) {
        Ok((value, _)) => value,
        Err(ValueRefusal::NoMemory) => return Err(NoMemory),
        Err(ValueRefusal::Short) => return Ok(None),
        Err(ValueRefusal::TooLong) => return Ok(None),
    };
    let mut again = Octets::new(alloc);
    value.put(Endian::Lsb, &mut again)?;
    match bytes.strip_prefix(again.as_slice()) {
        Some(rest) => Ok(Some((value, rest))),
        None => Ok(None),
    }
}
