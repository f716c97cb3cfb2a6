ghost use Rattle.std.specs.Prelude.{◌≡◌, ◌++◌, ◌∷◌, [], ℕ, List, MatchOption, IfOk, OnOk};
ghost use Rattle.session_places.specs.Addresses.{begins_with as does_begin, folder, local_sockets, local_word, places_for, unix_sockets, unix_word, whole_path as path_of, IsAt, IsBy};
ghost use Rattle.session_places.specs.Lists.{Adds, Lists};

use crate::places::{PlaceList, SessionPlace, SocketName};
use crate::splitting::split_at_last;
use control_lines::split_once;
use owned_lists::{NoMemory, Octets};
use std::alloc::Global;

fn begins_with(bytes: &[u8], byte: u8) -> bool
    ensures { result ≡ does_begin byte bytes.now }
{
    match bytes.first() {
        Some(first) => *first == byte,
        None => false,
    }
}

/// What the path of a socket begins with that is named without a folder.
#[tactic(auto, unfolding(crate::specs::Addresses::folder))]
fn put_folder(path: &mut Octets) -> Result<(), NoMemory>
    ensures { OnOk result (path.new ≡ path.old ++ folder) }
{
    path.append(b"/tmp/.ICE-unix/")
}

/// The path of the socket that an address names so.
fn whole_path(alloc: Global, name: &[u8]) -> Result<Octets, NoMemory>
    ensures { IfOk result (λ path. path ≡ path_of name.now) }
{
    if begins_with(name, b'/') {
        return Octets::from_slice(alloc, name);
    }
    let mut path = Octets::new(alloc);
    put_folder(&mut path)?;
    path.append(name)?;
    Ok(path)
}

/// Adds a socket of an address.
fn put_place(
    alloc: Global,
    address: &[u8],
    host: &[u8],
    socket: SocketName,
    places: &mut PlaceList,
) -> Result<(), NoMemory>
    ensures { OnOk result (places.new ≡ places.old
        ++ places_for address.now host.now (socket ∷ [])) }
{
    places.push(SessionPlace {
        network: Octets::from_slice(alloc, address)?,
        host: Octets::from_slice(alloc, host)?,
        socket,
    })
}

/// Adds the sockets of an address by `local`.
fn put_local(
    alloc: Global,
    address: &[u8],
    host: &[u8],
    name: &[u8],
    places: &mut PlaceList,
) -> Result<(), NoMemory>
    ensures { OnOk result (places.new ≡ places.old
        ++ places_for address.now host.now (local_sockets name.now)) }
{
    if begins_with(name, b'@') {
        let name = Octets::from_slice(alloc, &name[1..])?;
        return put_place(alloc, address, host, SocketName::Abstract(name), places);
    }
    let first = SocketName::Abstract(whole_path(alloc, name)?);
    put_place(alloc, address, host, first, places)?;
    let second = SocketName::Path(whole_path(alloc, name)?);
    put_place(alloc, address, host, second, places)
}

/// Adds the socket of an address by `unix`.
fn put_unix(
    alloc: Global,
    address: &[u8],
    host: &[u8],
    name: &[u8],
    places: &mut PlaceList,
) -> Result<(), NoMemory>
    ensures { OnOk result (places.new ≡ places.old
        ++ places_for address.now host.now (unix_sockets name.now)) }
{
    let socket = SocketName::Path(whole_path(alloc, name)?);
    put_place(alloc, address, host, socket, places)
}

/// The host and the name of an address that begins with this word.
fn parts_by<'a>(address: &'a [u8], word: &[u8]) -> Option<(&'a [u8], &'a [u8])>
    ensures { MatchOption result ((host : List ℕ) (name : List ℕ) →
        ¬ (IsBy word.now address.now host name))
        (λ parts. IsBy word.now address.now parts.0.now parts.1.now) }
{
    match address.strip_prefix(word) {
        Some(rest) => split_at_last(rest, b':'),
        None => None,
    }
}

/// Adds the sockets of an address.
fn put_address(alloc: Global, address: &[u8], places: &mut PlaceList) -> Result<(), NoMemory>
    ensures { OnOk result (Adds address.now places.old places.new) }
{
    if let Some((host, name)) = parts_by(address, b"local/") {
        return put_local(alloc, address, host, name, places);
    }
    if let Some((host, name)) = parts_by(address, b"unix/") {
        return put_unix(alloc, address, host, name, places);
    }
    Ok(())
}

/// The sockets at which a session's manager may be, by what SESSION_MANAGER says, in the order in
/// which they are tried: addresses with a comma between two, of which `local/HOST:NAME` and
/// `unix/HOST:NAME` are looked at, and each other one is passed over. A NAME without a slash in front
/// lies in `/tmp/.ICE-unix`; with `local` it is an abstract name first, and no other one where it
/// begins with `@`.
pub fn session_places(alloc: Global, text: &[u8]) -> Result<PlaceList, NoMemory>
    ensures { IfOk result (Lists text.now) }
{
    let mut places = PlaceList::new(alloc);
    let mut rest = text;
    while let Some((address, after)) = split_once(rest, b',') {
        put_address(alloc, address, &mut places)?;
        rest = after;
    }
    put_address(alloc, rest, &mut places)?;
    Ok(places)
}
