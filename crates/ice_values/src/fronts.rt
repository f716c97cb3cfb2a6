ghost use Rattle.std.specs.Prelude.{◌≡◌, ◌≢◌, ◌≤◌, length, OnOk, OnSome, Err};
ghost use Rattle.ice_values.specs.Reading.{Answers, Finds, card_at, bytes_at, skip_at, proof_data_at};

use crate::numbers::{read_card16, read_card32};
use crate::{Endian, ValueRefusal};
use owned_lists::Octets;
use std::alloc::Global;

/// The CARD16 at the front, and what follows it. None where there are fewer bytes.
pub fn cut_card16(endian: Endian, bytes: &[u8]) -> Option<(u16, &[u8])>
    ensures { Finds (λ x. (x.0, x.1.now)) result (card_at endian 2 bytes.now) }
{
    if bytes.len() < 2 {
        return None;
    }
    let (_, rest) = bytes.split_at(2);
    Some((read_card16(endian, bytes), rest))
}

/// The CARD32 at the front, and what follows it. None where there are fewer bytes.
pub fn cut_card32(endian: Endian, bytes: &[u8]) -> Option<(u32, &[u8])>
    ensures { Finds (λ x. (x.0, x.1.now)) result (card_at endian 4 bytes.now) }
{
    if bytes.len() < 4 {
        return None;
    }
    let (_, rest) = bytes.split_at(4);
    Some((read_card32(endian, bytes), rest))
}

/// So many bytes at the front, and what follows them. None where there are fewer.
pub fn cut_bytes(count: usize, bytes: &[u8]) -> Option<(&[u8], &[u8])>
    ensures { Finds (λ x. (x.0.now, x.1.now)) result (bytes_at count bytes.now) }
{
    if bytes.len() < count {
        return None;
    }
    Some(bytes.split_at(count))
}

/// What follows so many bytes. None where there are fewer.
pub fn pass_bytes(count: usize, bytes: &[u8]) -> Option<&[u8]>
    ensures exact { Finds (λ x. x.now) result (skip_at count bytes.now) }
    ensures enough { OnSome result (count ≤ length bytes.now) }
{
    if bytes.len() < count {
        return None;
    }
    let (_, rest) = bytes.split_at(count);
    Some(rest)
}

/// The CARD16 at the front, and what follows it.
pub fn take_card16(endian: Endian, bytes: &[u8]) -> Result<(u16, &[u8]), ValueRefusal>
    ensures exact { Answers (λ x. (x.0, x.1.now)) result (card_at endian 2 bytes.now) }
    ensures memory { result ≢ Err ValueRefusal.NoMemory }
{
    match cut_card16(endian, bytes) {
        Some(cut) => Ok(cut),
        None => Err(ValueRefusal::Short),
    }
}

/// The CARD32 at the front, and what follows it.
pub fn take_card32(endian: Endian, bytes: &[u8]) -> Result<(u32, &[u8]), ValueRefusal>
    ensures { Answers (λ x. (x.0, x.1.now)) result (card_at endian 4 bytes.now) }
{
    match cut_card32(endian, bytes) {
        Some(cut) => Ok(cut),
        None => Err(ValueRefusal::Short),
    }
}

/// So many bytes at the front, and what follows them.
pub fn take_bytes(count: usize, bytes: &[u8]) -> Result<(&[u8], &[u8]), ValueRefusal>
    ensures { Answers (λ x. (x.0.now, x.1.now)) result (bytes_at count bytes.now) }
{
    match cut_bytes(count, bytes) {
        Some(cut) => Ok(cut),
        None => Err(ValueRefusal::Short),
    }
}

/// What follows so many bytes.
pub fn skip(count: usize, bytes: &[u8]) -> Result<&[u8], ValueRefusal>
    ensures exact { Answers (λ x. x.now) result (skip_at count bytes.now) }
    ensures enough { OnOk result (count ≤ length bytes.now) }
{
    match pass_bytes(count, bytes) {
        Some(rest) => Ok(rest),
        None => Err(ValueRefusal::Short),
    }
}

/// The data of an authentication at the front, and what follows it.
#[tactic(auto, unfolding(crate::specs::Reading::proof_data_at))]
pub fn take_proof_data(
    alloc: Global,
    endian: Endian,
    bytes: &[u8],
) -> Result<(Octets, &[u8]), ValueRefusal>
    ensures { Answers (λ x. (x.0, x.1.now)) result (proof_data_at endian bytes.now) }
{
    let (count, rest) = take_card16(endian, bytes)?;
    let rest = skip(6, rest)?;
    let (data, rest) = take_bytes(count as usize, rest)?;
    Ok((Octets::from_slice(alloc, data)?, rest))
}
