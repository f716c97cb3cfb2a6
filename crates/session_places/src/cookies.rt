ghost use Rattle.std.specs.Prelude.{◌≡◌, IsTrue, find, length, option_copied, IfErr, IfOk, IfSome};
ghost use Rattle.session_places.specs.Authority.{lets_in, HasCookie, IsCookieRefusal};

use ice_cookie::{AuthorityEntry, AuthorityRefusal, Cookie, read_authority};
use std::alloc::Global;

/// Why an authority file has no cookie for an address.
#[derive(Clone, Copy, Debug, PartialEq, Eq)]
pub enum CookieRefusal {
    /// The file ends in the middle of an entry.
    BadFile,
    /// No entry lets the client in.
    NoEntry,
    NoMemory,
}

/// Whether the entry is one of ICE's, with a cookie, for this network ID.
fn is_for(entry: &AuthorityEntry, network: &[u8]) -> bool
    ensures test { result ≡ lets_in network.now entry.now }
    ensures whole { IsTrue result → length entry.now.proof ≡ 16 }
{
    entry.protocol.as_slice() == b"ICE".as_slice()
        && entry.name.as_slice() == b"MIT-MAGIC-COOKIE-1".as_slice()
        && entry.proof.len() == 16
        && entry.network.as_slice() == network
}

/// The cookie that has these bytes.
fn cookie_of(proof: &[u8]) -> Cookie
    requires { length proof.now ≡ 16 }
    ensures { result.0 ≡ proof.now }
{
    let mut bytes = [0; 16];
    bytes.copy_from_slice(proof);
    Cookie(bytes)
}

/// The first entry that is so.
fn first_entry<'a>(entries: &'a [AuthorityEntry], network: &[u8]) -> Option<&'a AuthorityEntry>
    ensures first { option_copied result ≡ find (lets_in network.now) entries.now }
    ensures whole { IfSome result (λ entry. length entry.now.proof ≡ 16) }
{
    for entry in entries {
        if is_for(entry, network) {
            return Some(entry);
        }
    }
    None
}

/// The cookie by which an authority file with these bytes lets a client in at an address
/// (`SessionPlace::network`): that of the first entry for `ICE` with this network ID.
pub fn session_cookie(alloc: Global, bytes: &[u8], network: &[u8]) -> Result<Cookie, CookieRefusal>
    ensures found { IfOk result (HasCookie network.now bytes.now) }
    ensures none { IfErr result (IsCookieRefusal network.now bytes.now) }
{
    let entries = match read_authority(alloc, bytes) {
        Ok(entries) => entries,
        Err(AuthorityRefusal::Short { .. }) => return Err(CookieRefusal::BadFile),
        Err(AuthorityRefusal::NoMemory) => return Err(CookieRefusal::NoMemory),
        Err(AuthorityRefusal::TooLong) => unreachable!(),
    };
    match first_entry(entries.as_slice(), network) {
        Some(entry) => Ok(cookie_of(entry.proof.as_slice())),
        None => Err(CookieRefusal::NoEntry),
    }
}
