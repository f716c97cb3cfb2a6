ghost use Rattle.std.specs.Prelude.{◌≡◌, ◌<◌, IfOk, IfErr};
ghost use Rattle.display_place.specs.Places.{SaysPlace, is_network as of_network, is_own as of_own, host_place, plain_place};
ghost use Rattle.display_place.specs.Refusals.{IsFrontRefused};

use crate::splitting::{is_word, split_at_last};
use crate::{DisplayRefusal, Place};
use owned_lists::{NoMemory, Octets};
use std::alloc::Global;

/// The port of display 0 of a host.
const FIRST_PORT: u16 = 6000;

/// Whether the host is this machine.
fn is_own(host: &[u8]) -> bool
    ensures { result ≡ of_own host.now }
{
    is_word(host, b"") || is_word(host, b"unix")
}

fn is_network(protocol: &[u8]) -> bool
    ensures { result ≡ of_network protocol.now }
{
    is_word(protocol, b"tcp") || is_word(protocol, b"inet")
}

fn host_of(alloc: Global, host: &[u8], number: u16) -> Result<Place, NoMemory>
    requires { number < 59536 }
    ensures { IfOk result (λ place. place ≡ host_place host.now number) }
{
    Ok(Place::Host {
        host: Octets::from_slice(alloc, host)?,
        port: FIRST_PORT + number,
    })
}

/// The place of a name without a protocol.
fn place_of(alloc: Global, host: &[u8], number: u16) -> Result<Place, NoMemory>
    requires { number < 59536 }
    ensures { IfOk result (λ place. place ≡ plain_place host.now number) }
{
    if is_own(host) {
        return Ok(Place::Local);
    }
    host_of(alloc, host, number)
}

/// The place that `[PROTOCOL/][HOST]` says of a display with this number.
pub(crate) fn read_place(alloc: Global, front: &[u8], number: u16) -> Result<Place, DisplayRefusal>
    requires { number < 59536 }
    ensures says { IfOk result (SaysPlace front.now number) }
    ensures refused { IfErr result (IsFrontRefused front.now) }
{
    let Some((protocol, host)) = split_at_last(front, b'/') else {
        return Ok(place_of(alloc, front, number)?);
    };
    if is_word(protocol, b"unix") {
        return Ok(Place::Local);
    }
    if !is_network(protocol) {
        return Err(DisplayRefusal::BadProtocol);
    }
    if is_own(host) {
        return Err(DisplayRefusal::BadHost);
    }
    Ok(host_of(alloc, host, number)?)
}
