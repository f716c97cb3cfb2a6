ghost use Rattle.std.specs.Prelude.{◌≡◌, ◌++◌, ℕ, List, Result, IfOk, IfErr, IfSome, IfNone};
ghost use Rattle.ice_values.specs.Reading.{Answers};
ghost use Rattle.ice_cookie.specs.Meaning.{HasNoFront, Spells, IsRefused, StandFor, Gives};
ghost use Rattle.ice_cookie.specs.Reading.{field_at, entry_at};
ghost use Rattle.ice_cookie.specs.Spelling.{entry_bytes, HasSpelling};
ghost use Rattle.ice_cookie.specs.declared.authority.AuthorityEntry.{AuthorityEntry as AnyEntry};

use crate::{AuthorityEntry, AuthorityList, AuthorityRefusal};
use ice_values::{Endian, ValueRefusal, take_bytes, take_card16};
use owned_lists::{NoMemory, Octets};
use std::alloc::Global;

#[tactic(auto, unfolding(crate::specs::Reading::field_at))]
fn take_field(alloc: Global, bytes: &[u8]) -> Result<(Octets, &[u8]), ValueRefusal>
    ensures { Answers (λ x. (x.0, x.1.now)) result (field_at bytes.now) }
{
    let (count, rest) = take_card16(Endian::Msb, bytes)?;
    let (field, rest) = take_bytes(count as usize, rest)?;
    Ok((Octets::from_slice(alloc, field)?, rest))
}

/// The entry at the front, and what follows it.
#[tactic(auto, unfolding(crate::specs::Reading::entry_at))]
fn take_entry(alloc: Global, bytes: &[u8]) -> Result<(AuthorityEntry, &[u8]), ValueRefusal>
    ensures { Answers (λ x. (x.0, x.1.now)) result (entry_at bytes.now) }
{
    let (protocol, rest) = take_field(alloc, bytes)?;
    let (details, rest) = take_field(alloc, rest)?;
    let (network, rest) = take_field(alloc, rest)?;
    let (name, rest) = take_field(alloc, rest)?;
    let (proof, rest) = take_field(alloc, rest)?;
    let entry = AuthorityEntry {
        protocol,
        details,
        network,
        name,
        proof,
    };
    Ok((entry, rest))
}

/// The entry at the front, and what follows it. None where the bytes begin with no whole entry.
fn take_whole(alloc: Global, bytes: &[u8]) -> Result<Option<(AuthorityEntry, &[u8])>, NoMemory>
    ensures some { IfOk result (λ found.
        IfSome found (λ x. HasSpelling x.0 × (bytes.now ≡ entry_bytes x.0 ++ x.1.now))) }
    ensures none { IfOk result (λ found. IfNone found (HasNoFront bytes.now)) }
{
    match take_entry(alloc, bytes) {
        Ok(found) => Ok(Some(found)),
        Err(ValueRefusal::Short) => Ok(None),
        Err(ValueRefusal::TooLong) => Ok(None),
        Err(ValueRefusal::NoMemory) => Err(NoMemory),
    }
}

/// The entries that the bytes of an authority file spell. Short where, behind the last whole entry,
/// bytes are left; they begin at the offset that it names.
pub fn read_authority(alloc: Global, bytes: &[u8]) -> Result<AuthorityList, AuthorityRefusal>
    ensures entries { IfOk result (λ entries. Spells bytes.now entries) }
    ensures short { IfErr result (λ refusal. IsRefused bytes.now refusal) }
    ensures exact { (answer : Result (List AnyEntry) ℕ) → StandFor bytes.now answer →
        Gives result answer }
{
    let mut entries = AuthorityList::new(alloc);
    let mut rest = bytes;
    while !rest.is_empty() {
        match take_whole(alloc, rest)? {
            Some((entry, after)) => {
                entries.push(entry)?;
                rest = after;
            }
            None => {
                let at = bytes.len() - rest.len();
                return Err(AuthorityRefusal::Short { at: at as u64 });
            }
        }
    }
    Ok(entries)
}
