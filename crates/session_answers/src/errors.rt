ghost use Rattle.std.specs.Prelude.{◌≡◌, ◌<◌, ◌^◌, ◌%◌, ◌≤◌, drop, length, take, IfOk};
ghost use Rattle.ice_values.specs.Classes.{class_number};
ghost use Rattle.session_model.specs.Errors as of;
ghost use Rattle.session_answers.specs.Arrivals.{arrival_of};
ghost use Rattle.xsmp_messages.specs.Messages.{minor_of};

use crate::arrivals::ArrivalView;
use ice_values::{Endian, ErrorBody, ErrorClass, Severity, pad, put_bytes, put_card32, put_zeros};
use owned_lists::{NoMemory, Octets};
use std::alloc::Global;
use xsmp_messages::{XsmpMessage, minor};

/// How many bytes of an ID an Error shows at most.
const SHOWN_LIMIT: u32 = 65_520;

/// The Error for a message that has no place in the phase of its sender (ICE, chapter 7: BadState).
pub fn bad_state(alloc: Global, arrival: &ArrivalView<'_>) -> ErrorBody
    ensures { result ≡ of.bad_state (arrival_of arrival.now) }
{
    error_about(
        arrival.message,
        arrival.sequence,
        ErrorClass::BadState,
        Severity::CanContinue,
        Octets::new(alloc),
    )
}

/// The Error for an ID that the sender can't have.
pub fn bad_id(alloc: Global, arrival: &ArrivalView<'_>) -> Result<ErrorBody, NoMemory>
    ensures { IfOk result (λ error. error ≡ of.bad_id (arrival_of arrival.now)) }
{
    bad_value(alloc, Severity::CanContinue, arrival, 8, SHOWN_LIMIT)
}

/// The Error for a new client where there is no room for one more ID.
pub fn no_room(alloc: Global, arrival: &ArrivalView<'_>) -> Result<ErrorBody, NoMemory>
    ensures { IfOk result (λ error. error ≡ of.no_room (arrival_of arrival.now)) }
{
    bad_value(alloc, Severity::FatalToProtocol, arrival, 8, 8)
}

/// The Error for properties that don't fit into the table of their client.
pub fn full_table(alloc: Global, arrival: &ArrivalView<'_>) -> Result<ErrorBody, NoMemory>
    ensures { IfOk result (λ error. error ≡ of.full_table (arrival_of arrival.now)) }
{
    bad_value(alloc, Severity::CanContinue, arrival, 8, 4)
}

/// The Error for a client that wants to be shut down alone.
pub fn lone_shutdown(alloc: Global, arrival: &ArrivalView<'_>) -> Result<ErrorBody, NoMemory>
    ensures { IfOk result (λ error. error ≡ of.lone_shutdown (arrival_of arrival.now)) }
{
    bad_value(alloc, Severity::CanContinue, arrival, 12, 1)
}

/// The Error for bytes of a message that aren't acceptable (ICE, chapter 7: BadValue): where they
/// begin, counted from the message's first byte, and how many of them are shown at most.
fn bad_value(
    alloc: Global,
    severity: Severity,
    arrival: &ArrivalView<'_>,
    at: u32,
    limit: u32,
) -> Result<ErrorBody, NoMemory>
    ensures { IfOk result (λ error.
        error ≡ of.bad_value severity (arrival_of arrival.now) at
        (take limit (drop at arrival.now.frame.now))) }
{
    let values = values_at(alloc, at, part(arrival.frame, at, limit))?;
    let class = ErrorClass::BadValue;
    let error = error_about(arrival.message, arrival.sequence, class, severity, values);
    Ok(error)
}

/// An Error about a message with this number among those of its sender. The values fill whole
/// units.
fn error_about(
    message: &XsmpMessage,
    sequence: u32,
    class: ErrorClass,
    severity: Severity,
    values: Octets,
) -> ErrorBody
    requires { length values % 8 ≡ 0 }
    ensures { result ≡ record {
      class = class_number class;
      minor = minor_of message.now;
      severity = severity;
      sequence = sequence;
      values = values;
    } }
{
    ErrorBody {
        class: class.number(),
        minor: minor(message),
        severity,
        sequence,
        values,
    }
}

/// The bytes of a frame from a place on, and so many at most.
fn part(frame: &[u8], at: u32, limit: u32) -> &[u8]
    ensures part { result.now ≡ take limit (drop at frame.now) }
    ensures within { length result.now ≤ limit }
{
    let rest = &frame[(at as usize).min(frame.len())..];
    &rest[..(limit as usize).min(rest.len())]
}

/// The values of a BadValue: a place, a length, the bytes, and zeros to a unit.
fn values_at(alloc: Global, at: u32, bytes: &[u8]) -> Result<Octets, NoMemory>
    requires { length bytes.now < 2 ^ 32 }
    ensures spelled { IfOk result (λ values. values ≡ of.value_at at bytes.now) }
    ensures units { IfOk result (λ values. length values % 8 ≡ 0) }
{
    let mut values = Octets::new(alloc);
    put_card32(Endian::Lsb, at, &mut values)?;
    put_card32(Endian::Lsb, bytes.len() as u32, &mut values)?;
    put_bytes(bytes, &mut values)?;
    put_zeros(pad(bytes.len(), 8), &mut values)?;
    Ok(values)
}
