ghost use Rattle.std.specs.Prelude.{◌≡◌, ◌<◌, length, IfOk, IfSome, MatchOption, Some, None};
ghost use Rattle.ice_cookie.specs.Reading.{field_at};
ghost use Rattle.ice_values.specs.Reading.{Answers};
ghost use Rattle.display_place.specs.Entries.{Hold, entry_at, family_of as of_number};

use ice_values::{Endian, ValueRefusal, take_bytes, take_card16};
use owned_lists::{ListOf, NoMemory, Octets};
use std::alloc::Global;

/// What kind of address an entry has.
#[derive(Clone, Copy, Debug, PartialEq, Eq)]
pub enum Family {
    /// 4 bytes of the Internet (0).
    Internet,
    /// 16 bytes of the Internet's version 6 (6).
    InternetV6,
    /// The name of the machine whose own sockets they are (256).
    Local,
    /// No address: the entry is good for every place (65,535).
    Any,
    /// A network that isn't spoken here.
    Other(u16),
}

/// What a program needs to know to show at one display that it may connect.
#[derive(Drop)]
pub struct DisplayEntry {
    pub family: Family,
    /// The address at which the entry is good.
    pub address: Octets,
    /// The display's number in decimal; empty where the entry is good for all.
    pub number: Octets,
    /// The authorization protocol, such as `MIT-MAGIC-COOKIE-1`.
    pub name: Octets,
    /// The data of the authorization, such as the 16 bytes of a cookie. It is secret.
    pub proof: Octets,
}

/// The entries of an authority file, in its order.
pub type DisplayEntryList = ListOf<DisplayEntry>;

fn family_of(number: u16) -> Family
    ensures { result ≡ of_number number }
{
    match number {
        0 => Family::Internet,
        6 => Family::InternetV6,
        256 => Family::Local,
        65535 => Family::Any,
        _ => Family::Other(number),
    }
}

/// The counted field at the front, and what follows it.
#[tactic(auto, unfolding(ice_cookie::specs::Reading::field_at))]
fn cut_field(bytes: &[u8]) -> Result<(&[u8], &[u8]), ValueRefusal>
    ensures { Answers (λ x. (x.0.now, x.1.now)) result (field_at bytes.now) }
{
    let (count, rest) = take_card16(Endian::Msb, bytes)?;
    take_bytes(usize::from(count), rest)
}

/// The entry at the front, and what follows it.
#[tactic(auto, unfolding(crate::specs::Entries::entry_at))]
fn take_entry(alloc: Global, bytes: &[u8]) -> Result<(DisplayEntry, &[u8]), ValueRefusal>
    ensures { Answers (λ x. (x.0, x.1.now)) result (entry_at bytes.now) }
{
    let (number_of_family, rest) = take_card16(Endian::Msb, bytes)?;
    let (address, rest) = cut_field(rest)?;
    let (number, rest) = cut_field(rest)?;
    let (name, rest) = cut_field(rest)?;
    let (proof, rest) = cut_field(rest)?;
    let entry = DisplayEntry {
        family: family_of(number_of_family),
        address: Octets::from_slice(alloc, address)?,
        number: Octets::from_slice(alloc, number)?,
        name: Octets::from_slice(alloc, name)?,
        proof: Octets::from_slice(alloc, proof)?,
    };
    Ok((entry, rest))
}

/// The entry at the front, and what follows it; `None` where the bytes begin with no whole entry.
fn next_entry(alloc: Global, bytes: &[u8]) -> Result<Option<(DisplayEntry, &[u8])>, NoMemory>
    ensures exact { IfOk result (λ found.
        MatchOption found (entry_at bytes.now ≡ None) (λ x. entry_at bytes.now ≡ Some (x.0, x.1.now))) }
    ensures shorter { IfOk result (λ found. IfSome found (λ x. length x.1.now < length bytes.now)) }
{
    match take_entry(alloc, bytes) {
        Ok(found) => Ok(Some(found)),
        Err(ValueRefusal::Short) => Ok(None),
        Err(ValueRefusal::TooLong) => Ok(None),
        Err(ValueRefusal::NoMemory) => Err(NoMemory),
    }
}

/// The entries of an X authority file with these bytes. Where the file ends in the middle of an
/// entry, those before it are all.
pub fn read_entries(alloc: Global, bytes: &[u8]) -> Result<DisplayEntryList, NoMemory>
    ensures holds { IfOk result (Hold bytes.now) }
{
    let mut entries = DisplayEntryList::new(alloc);
    let mut rest = bytes;
    while let Some(found) = next_entry(alloc, rest)? {
        let (entry, after) = found;
        entries.push(entry)?;
        rest = after;
    }
    Ok(entries)
}
