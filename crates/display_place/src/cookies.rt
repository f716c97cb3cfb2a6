ghost use Rattle.std.specs.Prelude.{◌≡◌, IfOk, find, option_copied};
ghost use Rattle.std.specs.Str.{bytes_eq};
ghost use Rattle.display_place.specs.Choice.{entry_for as chosen, cookie_name, is_for as of_display, is_good_at as of_place, is_here as of_here, is_of_number as of_number, is_v4 as of_v4, is_v6 as of_v6, loopback_v4, loopback_v6};

use crate::splitting::is_word;
use crate::{DisplayEntry, Family};
use owned_lists::NoMemory;
use std::alloc::Global;

/// An authorization protocol whose data are a cookie.
const COOKIE_NAME: [u8; 18] = *b"MIT-MAGIC-COOKIE-1";

const LOOPBACK_V4: [u8; 4] = [127, 0, 0, 1];

const LOOPBACK_V6: [u8; 16] = [0, 0, 0, 0, 0, 0, 0, 0, 0, 0, 0, 0, 0, 0, 0, 1];

/// An address of the Internet, of version 4 or 6, as its bytes.
#[derive(Clone, Copy, Debug, PartialEq, Eq)]
pub enum IpAddress {
    V4([u8; 4]),
    V6([u8; 16]),
}

fn is_v4(reached: Option<IpAddress>, address: &[u8]) -> bool
    ensures { result ≡ of_v4 reached address.now }
{
    match reached {
        Some(IpAddress::V4(bytes)) => address == bytes.as_slice(),
        Some(IpAddress::V6(_)) => false,
        None => false,
    }
}

fn is_v6(reached: Option<IpAddress>, address: &[u8]) -> bool
    ensures { result ≡ of_v6 reached address.now }
{
    match reached {
        Some(IpAddress::V4(_)) => false,
        Some(IpAddress::V6(bytes)) => address == bytes.as_slice(),
        None => false,
    }
}

#[tactic(auto, unfolding(crate::specs::Choice::loopback_v4))]
fn is_loopback_v4(bytes: &[u8; 4]) -> bool
    ensures { result ≡ bytes_eq bytes.now loopback_v4 }
{
    is_word(bytes, &LOOPBACK_V4)
}

#[tactic(auto, unfolding(crate::specs::Choice::loopback_v6))]
fn is_loopback_v6(bytes: &[u8; 16]) -> bool
    ensures { result ≡ bytes_eq bytes.now loopback_v6 }
{
    is_word(bytes, &LOOPBACK_V6)
}

/// Whether the display that was reached there is on this machine.
fn is_here(reached: Option<IpAddress>) -> bool
    ensures { result ≡ of_here reached }
{
    match reached {
        None => true,
        Some(IpAddress::V4(bytes)) => is_loopback_v4(&bytes),
        Some(IpAddress::V6(bytes)) => is_loopback_v6(&bytes),
    }
}

/// Whether the entry is good at the place where the display was reached.
fn is_good_at(machine: &[u8], reached: Option<IpAddress>, entry: &DisplayEntry) -> bool
    ensures { result ≡ of_place machine.now reached entry.now.family entry.now.address }
{
    let address = entry.address.as_slice();
    match entry.family {
        Family::Internet => is_v4(reached, address),
        Family::InternetV6 => is_v6(reached, address),
        Family::Local => is_here(reached) && is_word(address, machine),
        Family::Any => true,
        Family::Other(_) => false,
    }
}

/// Whether an entry has a cookie.
#[tactic(auto, unfolding(crate::specs::Choice::cookie_name))]
fn has_cookie(entry: &DisplayEntry) -> bool
    ensures { result ≡ bytes_eq entry.now.name cookie_name }
{
    is_word(entry.name.as_slice(), &COOKIE_NAME)
}

/// Whether an entry is good for the display with this number in decimal.
fn is_of_number(entry: &DisplayEntry, digits: &[u8]) -> bool
    ensures { result ≡ of_number digits.now entry.now.number }
{
    is_word(entry.number.as_slice(), b"") || is_word(entry.number.as_slice(), digits)
}

fn is_for(digits: &[u8], machine: &[u8], reached: Option<IpAddress>, entry: &DisplayEntry) -> bool
    ensures { result ≡ of_display digits.now machine.now reached entry.now }
{
    has_cookie(entry) && is_of_number(entry, digits) && is_good_at(machine, reached, entry)
}

fn first_for<'a>(
    entries: &'a [DisplayEntry],
    digits: &[u8],
    machine: &[u8],
    reached: Option<IpAddress>,
) -> Option<&'a DisplayEntry>
    ensures { option_copied result ≡ find (of_display digits.now machine.now reached) entries.now }
{
    entries
        .iter()
        .find(|entry| is_for(digits, machine, reached, entry))
}

/// The first entry with a cookie for the display of this number, on the machine with this name (as
/// `uname -n` prints it). `reached` is the address at which it was reached over TCP. An entry for the
/// machine's own sockets counts over the loopback as well, and nowhere else, so that no other machine
/// is shown its cookie. Where there is none, a connection is set up with an empty name and empty data.
pub fn entry_for<'a>(
    alloc: Global,
    entries: &'a [DisplayEntry],
    number: u16,
    machine: &[u8],
    reached: Option<IpAddress>,
) -> Result<Option<&'a DisplayEntry>, NoMemory>
    ensures { IfOk result (λ found.
        option_copied found ≡ chosen number machine.now reached entries.now) }
{
    let digits = number.to_string(alloc)?;
    Ok(first_for(entries, digits.as_bytes(), machine, reached))
}
