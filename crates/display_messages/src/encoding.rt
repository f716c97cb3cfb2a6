ghost use Rattle.std.specs.Prelude.{◌≡◌, ◌<◌, ◌^◌, ◌++◌, ◌∷◌, [], length, IfOk, OnOk};
ghost use Rattle.display_messages.specs.Requests.{short, longs, padded, request as request_bytes, named, client_message, bytes_of_request, setup, bytes_of_setup};

use crate::{ClientMessage, Request, Setup};
use ice_values::{Endian, Text16, pad, put_bytes, put_card16, put_card32, put_zeros};
use owned_lists::{NoMemory, Octets};
use std::alloc::Global;

const COOKIE_NAME: [u8; 18] = *b"MIT-MAGIC-COOKIE-1";

/// The event mask among the attributes of a window.
const EVENT_MASK: u32 = 2048;

/// The clients that X-Resource names by their process on this machine.
const LOCAL_PROCESS: u32 = 2;

/// Adds numbers of four bytes.
fn put_longs(numbers: &[u32], out: &mut Octets) -> Result<(), NoMemory>
    ensures { OnOk result (out.new ≡ out.old ++ longs numbers.now) }
{
    for number in numbers {
        put_card32(Endian::Lsb, *number, out)?;
    }
    Ok(())
}

/// Adds bytes, and zeros up to a whole unit of four.
fn put_padded(bytes: &[u8], out: &mut Octets) -> Result<(), NoMemory>
    ensures { OnOk result (out.new ≡ out.old ++ padded bytes.now) }
{
    put_bytes(bytes, out)?;
    put_zeros(pad(bytes.len(), 4), out)
}

/// Adds the first four bytes of a request, which has so many units of four in all.
fn put_head(opcode: u8, own: u8, units: u16, out: &mut Octets) -> Result<(), NoMemory>
    ensures { OnOk result (out.new ≡ out.old ++ ((opcode ∷ own ∷ []) ++ short units)) }
{
    put_bytes(&[opcode, own], out)?;
    put_card16(Endian::Lsb, units, out)
}

/// Adds a request whose fields are numbers of four bytes.
fn put_numbers(opcode: u8, own: u8, numbers: &[u32], out: &mut Octets) -> Result<(), NoMemory>
    requires { length numbers.now < 2 ^ 15 }
    ensures { OnOk result (out.new ≡ out.old ++ request_bytes opcode own (longs numbers.now)) }
{
    put_head(opcode, own, 1 + numbers.len() as u16, out)?;
    put_longs(numbers, out)
}

/// Adds a request whose field is a name.
fn put_named(opcode: u8, name: &Text16, out: &mut Octets) -> Result<(), NoMemory>
    ensures { OnOk result (out.new ≡ out.old ++ request_bytes opcode 0 (named name.now)) }
{
    let name = name.as_slice();
    let units = 2 + (name.len() + pad(name.len(), 4)) / 4;
    put_head(opcode, 0, units as u16, out)?;
    put_card16(Endian::Lsb, name.len() as u16, out)?;
    put_bytes(&[0, 0], out)?;
    put_padded(name, out)
}

/// Adds a SendEvent.
fn put_event(
    window: u32,
    events: u32,
    message: &ClientMessage,
    out: &mut Octets,
) -> Result<(), NoMemory>
    ensures { OnOk result (out.new ≡ out.old
        ++ request_bytes 25 0 (longs (window ∷ events ∷ []) ++ client_message message.now)) }
{
    put_head(25, 0, 11, out)?;
    put_longs(&[window, events], out)?;
    put_bytes(&[33, 32, 0, 0], out)?;
    put_longs(
        &[
            message.window,
            message.kind,
            message.first,
            message.second,
            message.third,
            0,
            0,
        ],
        out,
    )
}

fn put_request(request: &Request, out: &mut Octets) -> Result<(), NoMemory>
    ensures { OnOk result (out.new ≡ out.old ++ bytes_of_request request.now) }
{
    match request {
        Request::InternAtom { name } => put_named(16, name, out),
        Request::GetProperty {
            window,
            property,
            limit,
        } => put_numbers(20, 0, &[*window, *property, 0, 0, *limit], out),
        Request::ChangeWindowAttributes { window, events } => {
            put_numbers(2, 0, &[*window, EVENT_MASK, *events], out)
        }
        Request::GetWindowAttributes { window } => put_numbers(3, 0, &[*window], out),
        Request::QueryTree { window } => put_numbers(15, 0, &[*window], out),
        Request::SendEvent {
            window,
            events,
            message,
        } => put_event(*window, *events, message, out),
        Request::GetInputFocus => put_numbers(43, 0, &[], out),
        Request::QueryExtension { name } => put_named(98, name, out),
        Request::QueryResourceVersion { opcode } => {
            put_bytes(&[*opcode, 0, 2, 0, 1, 2, 0, 0], out)
        }
        Request::QueryClientIds { opcode, window } => {
            put_numbers(*opcode, 4, &[1, *window, LOCAL_PROCESS], out)
        }
    }
}

/// The bytes of a request, least significant byte first.
pub fn spell_request(alloc: Global, request: &Request) -> Result<Octets, NoMemory>
    ensures { IfOk result (λ bytes. bytes ≡ bytes_of_request request.now) }
{
    let mut out = Octets::new(alloc);
    put_request(request, &mut out)?;
    Ok(out)
}

/// Adds a set-up with the name of an authorization protocol and its data.
fn put_setup(name: &[u8], proof: &[u8], out: &mut Octets) -> Result<(), NoMemory>
    requires { (length name.now < 2 ^ 16) × (length proof.now < 2 ^ 16) }
    ensures { OnOk result (out.new ≡ out.old ++ setup name.now proof.now) }
{
    put_bytes(&[108, 0, 11, 0, 0, 0], out)?;
    put_card16(Endian::Lsb, name.len() as u16, out)?;
    put_card16(Endian::Lsb, proof.len() as u16, out)?;
    put_bytes(&[0, 0], out)?;
    put_padded(name, out)?;
    put_padded(proof, out)
}

/// The bytes of a set-up, which come before all requests.
pub fn spell_setup(alloc: Global, setup: &Setup) -> Result<Octets, NoMemory>
    ensures { IfOk result (λ bytes. bytes ≡ bytes_of_setup setup.now.cookie) }
{
    let mut out = Octets::new(alloc);
    match &setup.cookie {
        Some(cookie) => put_setup(&COOKIE_NAME, cookie.as_slice(), &mut out)?,
        None => put_setup(&[], &[], &mut out)?,
    }
    Ok(out)
}
