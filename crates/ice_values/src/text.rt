ghost use Rattle.std.specs.Prelude.{◌≡◌, ◌≢◌, ◌<◌, ◌≤◌, ◌^◌, ◌↔◌, ◌++◌, length, vec_len, IfOk, OnOk, OnErr, Err};
ghost use Rattle.ice_values.specs.Cells.{zeros};
ghost use Rattle.ice_values.specs.Fields.{text16, IsText16};
ghost use Rattle.ice_values.specs.Reading.{Answers, ReadsFront, text16_at};
ghost use Rattle.ice_values.specs.Writing.{Extends};

use crate::fronts::{cut_bytes, cut_card16, pass_bytes, skip, take_bytes, take_card16};
use crate::lengths::BODY_LIMIT;
use crate::numbers::pad;
use crate::spelled::{Spelled, read_front, write_whole};
use crate::writing::{put_bytes, put_card16, put_zeros};
use crate::{Endian, ValueRefusal};
use owned_lists::{Duplicate, ListOf, NoMemory, Octets};
use std::alloc::Global;
use std::marker::Model;

/// A text of at most 65,535 bytes (ICE, chapter 7: STRING).
#[derive(Debug, Drop)]
pub struct Text16 {
    bytes: Vec<u8>,
}

pub type TextList = ListOf<Text16>;

impl Model for Text16 {
    ghost use Rattle.std.specs.Prelude.{List, ℕ, ◌<◌, ◌^◌, length};

    ghost Value = { List ℕ };

    ghost view = { λ text. text.bytes.items };

    ghost invariant = { λ text. length text.bytes.items < 2 ^ 16 };
}

impl Text16 {
    /// A copy of these bytes, of which there may be 65,535.
    pub fn from_slice(alloc: Global, bytes: &[u8]) -> Result<Text16, ValueRefusal>
        ensures ok { IfOk result (λ text. text ≡ bytes.now) }
        ensures too_long { (result ≡ Err ValueRefusal.TooLong) ↔ (65535 < length bytes.now) }
        ensures not_short { result ≢ Err ValueRefusal.Short }
    {
        if bytes.len() > 65535 {
            return Err(ValueRefusal::TooLong);
        }
        match Vec::from_slice(alloc, bytes) {
            Ok(bytes) => Ok(Text16 { bytes }),
            Err(_) => Err(ValueRefusal::NoMemory),
        }
    }

    /// The same bytes in the same memory.
    pub fn from_vec(bytes: Vec<u8>) -> Text16
        requires { vec_len bytes ≤ 65535 }
        ensures { result ≡ bytes.items }
    {
        Text16 { bytes }
    }

    /// Gives the bytes back in their memory.
    pub fn into_vec(self) -> Vec<u8>
        ensures { result.items ≡ self }
    {
        let Text16 { bytes } = self;
        bytes
    }

    pub fn as_slice(&self) -> &[u8]
        ensures value { result.now ≡ self.now }
        ensures bound { length self.now < 2 ^ 16 }
    {
        self.bytes.as_slice()
    }
}

impl Duplicate for Text16 {
    fn copy(&self) -> Result<Text16, NoMemory> {
        Ok(Text16 {
            bytes: Vec::from_slice(*self.bytes.allocator(), self.bytes.as_slice())?,
        })
    }
}

fn put_text(endian: Endian, text: &[u8], out: &mut Octets) -> Result<(), NoMemory>
    requires { length text.now < 2 ^ 16 }
    ensures ok { OnOk result (out.new ≡ out.old ++ zeros (text16 endian text.now)) }
    ensures kept { Extends out.old out.new }
{
    put_card16(endian, text.len() as u16, out)?;
    put_bytes(text, out)?;
    put_zeros(pad(2 + text.len(), 4), out)
}

/// A text is spelled by its count, its bytes, and padding to a multiple of 4.
impl Spelled for Text16 {
    ghost cells = { text16 };

    ghost is_spelled = { IsText16 };

    ghost front = { text16_at };

    #[tactic(auto, unfolding(crate::specs::Reading::text16_at))]
    fn take(alloc: Global, endian: Endian, bytes: &[u8]) -> Result<(Text16, &[u8]), ValueRefusal> {
        let (count, rest) = take_card16(endian, bytes)?;
        let (text, rest) = take_bytes(count as usize, rest)?;
        let rest = skip(pad(2 + count as usize, 4), rest)?;
        Ok((Text16::from_slice(alloc, text)?, rest))
    }

    #[tactic(auto, unfolding(crate::specs::Reading::text16_at))]
    fn pass(endian: Endian, bytes: &[u8]) -> Option<&[u8]> {
        let (count, rest) = cut_card16(endian, bytes)?;
        let (_, rest) = cut_bytes(count as usize, rest)?;
        pass_bytes(pad(2 + count as usize, 4), rest)
    }

    fn put(&self, endian: Endian, out: &mut Octets) -> Result<(), NoMemory> {
        put_text16(endian, self, out)
    }

    fn size(&self) -> Option<usize> {
        let count = self.as_slice().len();
        if count > BODY_LIMIT - 2 {
            return None;
        }
        Some(2 + count + pad(2 + count, 4))
    }
}

/// Adds a text and its padding.
pub fn put_text16(endian: Endian, text: &Text16, out: &mut Octets) -> Result<(), NoMemory>
    ensures ok { OnOk result (out.new ≡ out.old ++ zeros (text16 endian text.now)) }
    ensures kept { Extends out.old out.new }
{
    put_text(endian, text.as_slice(), out)
}

/// The text that is spelled at the front, and how many bytes it took.
pub fn read_text16(
    alloc: Global,
    endian: Endian,
    bytes: &[u8],
) -> Result<(Text16, usize), ValueRefusal>
    ensures { ReadsFront (text16 endian) IsText16 bytes.now result }
{
    read_front(alloc, endian, bytes)
}

/// Adds the spelling of a text with zeros for padding.
pub fn write_text16(endian: Endian, text: &Text16, out: &mut Octets) -> Result<(), NoMemory>
    ensures ok { OnOk result (out.new ≡ out.old ++ zeros (text16 endian text.now)) }
    ensures err { OnErr result (out.new ≡ out.old) }
{
    let _value = text.as_slice();
    write_whole(endian, text, out)
}
