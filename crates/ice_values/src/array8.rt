ghost use Rattle.std.specs.Prelude.{◌≡◌, ◌<◌, ◌≤◌, ◌++◌, length, IfNone, IfSome, OnSome, OnOk, OnErr};
ghost use Rattle.ice_values.specs.Cells.{zeros};
ghost use Rattle.ice_values.specs.Properties.{array8, IsArray8, array8_at, array8_list, IsListed};
ghost use Rattle.ice_values.specs.Reading.{Finds, ReadsFront};
ghost use Rattle.ice_values.specs.Writing.{Extends};
ghost use Rattle.ice_values.specs.declared.numbers.Endian.{Endian as AnyEndian};

use crate::fronts::{cut_bytes, cut_card32, pass_bytes, skip, take_bytes, take_card32};
use crate::lengths::BODY_LIMIT;
use crate::numbers::pad;
use crate::spelled::{Spelled, read_front, write_whole};
use crate::writing::{put_bytes, put_card32, put_zeros};
use crate::{Endian, ValueRefusal};
use owned_lists::{ListOf, NoMemory, Octets};
use std::alloc::Global;

/// Bytes, as many as there are memory for (XSMP, chapter 10: ARRAY8). Spelled with a CARD32 in
/// front that says how many there are, they are at most 4,294,967,295.
pub type Array8 = Octets;

pub type Array8List = ListOf<Array8>;

fn put_counted(endian: Endian, bytes: &[u8], out: &mut Octets) -> Result<(), NoMemory>
    requires { IsArray8 bytes.now }
    ensures ok { OnOk result (out.new ≡ out.old ++ zeros (array8 endian bytes.now)) }
    ensures kept { Extends out.old out.new }
{
    put_card32(endian, bytes.len() as u32, out)?;
    put_bytes(bytes, out)?;
    put_zeros(pad(4 + bytes.len(), 8), out)
}

/// The bytes that are spelled at the front, where they lie, and what follows them. None where there are
/// none.
#[tactic(auto, unfolding(crate::specs::Properties::array8_at))]
pub fn cut_array8(endian: Endian, bytes: &[u8]) -> Option<(&[u8], &[u8])>
    ensures { Finds (λ x. (x.0.now, x.1.now)) result (array8_at endian bytes.now) }
{
    let (count, rest) = cut_card32(endian, bytes)?;
    let (text, rest) = cut_bytes(count as usize, rest)?;
    let rest = pass_bytes(pad(4 + count as usize, 8), rest)?;
    Some((text, rest))
}

/// How many bytes spell these bytes. None where there are more than 65,536.
pub fn array8_size(bytes: &[u8]) -> Option<usize>
    ensures none { IfNone result ((e : AnyEndian) → 65536 < length (array8 e bytes.now)) }
    ensures is { IfSome result (λ n. (e : AnyEndian) → n ≡ length (array8 e bytes.now)) }
    ensures least { IfSome result (λ n. 1 ≤ n) }
    ensures bound { IfSome result (λ n. n ≤ 65536) }
    ensures fits { OnSome result (IsArray8 bytes.now) }
{
    let count = bytes.len();
    if count > BODY_LIMIT - 4 {
        return None;
    }
    Some(4 + count + pad(4 + count, 8))
}

/// Bytes are spelled by their count, themselves, and padding to a multiple of 8.
impl Spelled for Octets {
    ghost cells = { array8 };

    ghost is_spelled = { IsArray8 };

    ghost front = { array8_at };

    #[tactic(auto, unfolding(crate::specs::Properties::array8_at))]
    fn take(alloc: Global, endian: Endian, bytes: &[u8]) -> Result<(Octets, &[u8]), ValueRefusal> {
        let (count, rest) = take_card32(endian, bytes)?;
        let (text, rest) = take_bytes(count as usize, rest)?;
        let rest = skip(pad(4 + count as usize, 8), rest)?;
        Ok((Octets::from_slice(alloc, text)?, rest))
    }

    fn pass(endian: Endian, bytes: &[u8]) -> Option<&[u8]> {
        let (_, rest) = cut_array8(endian, bytes)?;
        Some(rest)
    }

    fn put(&self, endian: Endian, out: &mut Octets) -> Result<(), NoMemory> {
        put_counted(endian, self.as_slice(), out)
    }

    fn size(&self) -> Option<usize> {
        array8_size(self.as_slice())
    }
}

/// The bytes that are spelled at the front, and how many bytes their spelling took.
pub fn read_array8(
    alloc: Global,
    endian: Endian,
    bytes: &[u8],
) -> Result<(Array8, usize), ValueRefusal>
    ensures { ReadsFront (array8 endian) IsArray8 bytes.now result }
{
    read_front(alloc, endian, bytes)
}

/// Adds the spelling of bytes with zeros for padding.
pub fn write_array8(endian: Endian, value: &Array8, out: &mut Octets) -> Result<(), NoMemory>
    requires { IsArray8 value.now }
    ensures ok { OnOk result (out.new ≡ out.old ++ zeros (array8 endian value.now)) }
    ensures err { OnErr result (out.new ≡ out.old) }
{
    write_whole(endian, value, out)
}

/// The list that is spelled at the front, and how many bytes it took.
pub fn read_array8_list(
    alloc: Global,
    endian: Endian,
    bytes: &[u8],
) -> Result<(Array8List, usize), ValueRefusal>
    ensures { ReadsFront (array8_list endian) (IsListed IsArray8) bytes.now result }
{
    read_front(alloc, endian, bytes)
}

/// Adds the spelling of a list with zeros in unused and padding bytes.
pub fn write_array8_list(
    endian: Endian,
    items: &Array8List,
    out: &mut Octets,
) -> Result<(), NoMemory>
    requires { IsListed IsArray8 items.now }
    ensures ok { OnOk result (out.new ≡ out.old ++ zeros (array8_list endian items.now)) }
    ensures err { OnErr result (out.new ≡ out.old) }
{
    write_whole(endian, items, out)
}
