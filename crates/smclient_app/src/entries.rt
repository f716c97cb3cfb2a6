ghost use Rattle.std.specs.Prelude.{◌≡◌, ◌∷◌, IsTrue, find, length, option_copied, IfErr, IfOk, IfSome};
ghost use Rattle.smclient_app.specs.Entries.{lets_in, HasCookie, IsEntryRefusal};

use ice_cookie::{AuthorityEntry, AuthorityRefusal, Cookie, read_authority};
use std::alloc::Global;

/// Why an authority file has no cookie for a client.
#[derive(Clone, Copy, Debug, PartialEq, Eq)]
pub enum EntryRefusal {
    /// No entry lets the client in, or the file ends in the middle of one.
    NoEntry,
    NoMemory,
}

/// Whether the entry is one of ICE's, with a cookie, whose network id ends so.
fn is_for(entry: &AuthorityEntry, end: &[u8]) -> bool
    ensures test { result ≡ lets_in end.now entry.now }
    ensures whole { IsTrue result → length entry.now.proof ≡ 16 }
{
    entry.protocol.as_slice() == b"ICE".as_slice()
        && entry.name.as_slice() == b"MIT-MAGIC-COOKIE-1".as_slice()
        && entry.proof.len() == 16
        && entry.network.as_slice().ends_with(end)
}

/// The cookie that has these bytes.
fn cookie_of(proof: &[u8]) -> Cookie
    requires { length proof.now ≡ 16 }
    ensures { result.0 ≡ proof.now }
{
    let mut bytes = [0; 16];
    bytes.copy_from_slice(proof);
    Cookie(bytes)
}

/// The first entry that is so.
fn first_entry<'a>(entries: &'a [AuthorityEntry], end: &[u8]) -> Option<&'a AuthorityEntry>
    ensures first { option_copied result ≡ find (lets_in end.now) entries.now }
    ensures whole { IfSome result (λ entry. length entry.now.proof ≡ 16) }
{
    for entry in entries {
        if is_for(entry, end) {
            return Some(entry);
        }
    }
    None
}

/// The cookie by which an authority file lets a client in at the socket with this path: that of the
/// first entry for `ICE` whose network id ends in a colon and the path.
pub fn read_cookie(alloc: Global, bytes: &[u8], socket: &str) -> Result<Cookie, EntryRefusal>
    ensures found { IfOk result (HasCookie socket.now bytes.now) }
    ensures none { IfErr result (IsEntryRefusal socket.now bytes.now) }
{
    let entries = match read_authority(alloc, bytes) {
        Ok(entries) => entries,
        Err(AuthorityRefusal::Short { .. }) => return Err(EntryRefusal::NoEntry),
        Err(AuthorityRefusal::NoMemory) => return Err(EntryRefusal::NoMemory),
        Err(AuthorityRefusal::TooLong) => unreachable!(),
    };
    let end = match format!(in alloc; ":{socket}") {
        Ok(end) => end,
        Err(_) => return Err(EntryRefusal::NoMemory),
    };
    match first_entry(entries.as_slice(), end.as_bytes()) {
        Some(entry) => Ok(cookie_of(entry.proof.as_slice())),
        None => Err(EntryRefusal::NoEntry),
    }
}
