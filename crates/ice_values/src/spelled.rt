ghost use Rattle.std.specs.Prelude.{◌≡◌, ◌≤◌, ◌<◌, ◌++◌, ◌+◌, ◌*◌, ℕ, List, length, drop, Option, IfOk, IfSome, IfNone, OnSome, OnOk, OnErr, flat_map, option_map};
ghost use Rattle.std.specs.List.{AllByRecursion};
ghost use Rattle.ice_values.specs.Cells.{Cells, zeros};
ghost use Rattle.ice_values.specs.Properties.{listed, IsListed, listed_at};
ghost use Rattle.ice_values.specs.Reading.{Answers, CutsAt, Exact, Finds, many_at, ReadsFront, rest_of};
ghost use Rattle.ice_values.specs.Writing.{Extends};
ghost use Rattle.ice_values.specs.declared.numbers.Endian.{Endian as AnyEndian};

use crate::fronts::{cut_card32, pass_bytes, skip, take_card32};
use crate::lengths::within_limit;
use crate::writing::{put_card32, put_zeros};
use crate::{Endian, ValueRefusal};
use owned_lists::{ListOf, NoMemory, Octets};
use std::alloc::Global;

/// A value that ICE or XSMP spells: how it is read, written and measured.
pub trait Spelled: Sized + Drop {
    ghost cells: { AnyEndian → Self → Cells };

    ghost is_spelled: { Self → Type 0 };

    ghost front: { AnyEndian → List ℕ → Option (Self × List ℕ) };

    /// The value at the front, and what follows it.
    fn take(alloc: Global, endian: Endian, bytes: &[u8]) -> Result<(Self, &[u8]), ValueRefusal>
        ensures { Answers (λ x. (x.0, x.1.now)) result (front endian bytes.now) };

    /// What follows the value at the front. None where there is none. This takes no memory.
    fn pass(endian: Endian, bytes: &[u8]) -> Option<&[u8]>
        ensures { Finds (λ x. x.now) result (rest_of (front endian bytes.now)) };

    /// Adds its spelling with zeros for padding.
    fn put(&self, endian: Endian, out: &mut Octets) -> Result<(), NoMemory>
        requires { is_spelled self.now }
        ensures ok { OnOk result (out.new ≡ out.old ++ zeros (cells endian self.now)) }
        ensures kept { Extends out.old out.new };

    /// How many bytes spell it. None where there are more than 65,536.
    fn size(&self) -> Option<usize>
        ensures none { IfNone result ((e : AnyEndian) → 65536 < length (cells e self.now)) }
        ensures is { IfSome result (λ n. (e : AnyEndian) → n ≡ length (cells e self.now)) }
        ensures least { IfSome result (λ n. 1 ≤ n) }
        ensures bound { IfSome result (λ n. n ≤ 65536) }
        ensures fits { OnSome result (is_spelled self.now) };
}

/// So many values at the front, and what follows them.
pub fn take_many<T: Spelled>(
    alloc: Global,
    endian: Endian,
    count: u32,
    bytes: &[u8],
) -> Result<(ListOf<T>, &[u8]), ValueRefusal>
    ensures { Answers (λ x. (x.0, x.1.now)) result (many_at (T.front endian) count bytes.now) }
{
    let mut items = ListOf::new(alloc);
    let mut rest = bytes;
    for _i in 0..count {
        let (item, after) = T::take(alloc, endian, rest)?;
        items.push(item)?;
        rest = after;
    }
    Ok((items, rest))
}

/// What follows so many values at the front. None where there are fewer.
pub fn pass_many<T: Spelled>(endian: Endian, count: u32, bytes: &[u8]) -> Option<&[u8]>
    ensures { Finds (λ x. x.now) result (rest_of (many_at (T.front endian) count bytes.now)) }
{
    let mut rest = bytes;
    for _passed in 0..count {
        rest = T::pass(endian, rest)?;
    }
    Some(rest)
}

/// Adds values, one after the other.
pub fn put_many<T: Spelled>(endian: Endian, items: &[T], out: &mut Octets) -> Result<(), NoMemory>
    requires { AllByRecursion T.is_spelled items.now }
    ensures ok { OnOk result (out.new ≡ out.old ++ zeros (flat_map (T.cells endian) items.now)) }
    ensures kept { Extends out.old out.new }
{
    for item in items {
        item.put(endian, out)?;
    }
    Ok(())
}

/// How many bytes spell values, one after the other. None where there are more than 65,536.
pub fn many_size<T: Spelled>(items: &[T]) -> Option<usize>
    ensures none { IfNone result ((e : AnyEndian) →
        65536 < length (flat_map (T.cells e) items.now)) }
    ensures is { IfSome result (λ n. (e : AnyEndian) →
        n ≡ length (flat_map (T.cells e) items.now)) }
    ensures count { IfSome result (λ n. length items.now ≤ n) }
    ensures bound { IfSome result (λ n. n ≤ 65536) }
    ensures fits { OnSome result (AllByRecursion T.is_spelled items.now) }
{
    let mut total = 0;
    for value in items {
        total = within_limit(total + value.size()?)?;
    }
    Some(total)
}

/// A list of values is spelled by a count, four unused bytes, and the items.
impl<T: Spelled> Spelled for ListOf<T> {
    ghost cells = { λ e items. listed (T.cells e) e items };

    ghost is_spelled = { λ items. IsListed T.is_spelled items };

    ghost front = { λ e bytes. listed_at (T.front e) e bytes };

    #[tactic(auto, unfolding(crate::specs::Properties::listed_at))]
    fn take(
        alloc: Global,
        endian: Endian,
        bytes: &[u8],
    ) -> Result<(ListOf<T>, &[u8]), ValueRefusal> {
        let (count, rest) = take_card32(endian, bytes)?;
        let rest = skip(4, rest)?;
        take_many(alloc, endian, count, rest)
    }

    #[tactic(auto, unfolding(crate::specs::Properties::listed_at))]
    fn pass(endian: Endian, bytes: &[u8]) -> Option<&[u8]> {
        let (count, rest) = cut_card32(endian, bytes)?;
        let rest = pass_bytes(4, rest)?;
        pass_many::<T>(endian, count, rest)
    }

    fn put(&self, endian: Endian, out: &mut Octets) -> Result<(), NoMemory> {
        let items = self.as_slice();
        put_card32(endian, items.len() as u32, out)?;
        put_zeros(4, out)?;
        put_many(endian, items, out)
    }

    fn size(&self) -> Option<usize> {
        within_limit(8 + many_size(self.as_slice())?)
    }
}

fn front_of<T: Spelled>(
    alloc: Global,
    endian: Endian,
    bytes: &[u8],
) -> Result<(T, usize), ValueRefusal>
    requires { Exact (T.cells endian) T.is_spelled (T.front endian) }
    ensures exact { Answers (λ x. (x.0, drop x.1 bytes.now)) result (T.front endian bytes.now) }
    ensures within { IfOk result (λ x. x.1 ≤ length bytes.now) }
{
    let (value, rest) = T::take(alloc, endian, bytes)?;
    Ok((value, bytes.len() - rest.len()))
}

/// The spelling of the value at the front, and what follows it. None where there is none. This takes no memory.
pub fn cut_front<T: Spelled>(endian: Endian, bytes: &[u8]) -> Option<(&[u8], &[u8])>
    requires { Exact (T.cells endian) T.is_spelled (T.front endian) }
    ensures { CutsAt (T.cells endian) (T.front endian) bytes.now
        (option_map (λ x. (x.0.now, x.1.now)) result) }
{
    let rest = T::pass(endian, bytes)?;
    let (front, _) = bytes.split_at(bytes.len() - rest.len());
    Some((front, rest))
}

/// The value that is spelled at the front, and how many bytes it took.
pub fn read_front<T: Spelled>(
    alloc: Global,
    endian: Endian,
    bytes: &[u8],
) -> Result<(T, usize), ValueRefusal>
    requires { Exact (T.cells endian) T.is_spelled (T.front endian) }
    ensures { ReadsFront (T.cells endian) T.is_spelled bytes.now result }
{
    front_of(alloc, endian, bytes)
}

/// Adds the spelling of a value with zeros for padding, or nothing.
pub fn write_whole<T: Spelled>(endian: Endian, value: &T, out: &mut Octets) -> Result<(), NoMemory>
    requires { T.is_spelled value.now }
    ensures ok { OnOk result (out.new ≡ out.old ++ zeros (T.cells endian value.now)) }
    ensures err { OnErr result (out.new ≡ out.old) }
{
    let start = out.len();
    let written = value.put(endian, out);
    if written.is_err() {
        out.truncate(start);
    }
    written
}
