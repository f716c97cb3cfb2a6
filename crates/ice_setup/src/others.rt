ghost use Rattle.std.specs.Prelude.{◌≡◌, ◌≤◌, ◌%◌, length};
ghost use Rattle.ice_values.specs.declared.numbers.Endian.TheVariants.{Lsb};
ghost use Rattle.ice_messages.specs.Messages.{IsTooLong};
ghost use Rattle.ice_messages.specs.declared.message.IceMessage.TheVariants.{Error as AnError};
ghost use Rattle.ice_setup.specs.Setup.{refusal as refusal_of, refuses, CanBeSaid, other_cell, out_of_place as out_of_place_spec, wants_to_close as wants_to_close_spec, named as named_spec};

use crate::errors::{Offending, error_of};
use crate::states::{AnySetup, Moved};
use ice_messages::{IceMessage, minor};
use ice_values::{ErrorBody, ErrorClass, Severity};
use owned_lists::Octets;
use std::alloc::Global;

/// What an Error names of a message.
pub fn named(message: &IceMessage, sequence: u32) -> Offending
    ensures { result ≡ named_spec message.now sequence }
{
    Offending {
        minor: minor(message),
        sequence,
    }
}

/// The Error of what is refused in a state, with values that fill units of 8 bytes. It is fatal to
/// the connection before ConnectionReply was sent, and can continue later.
pub fn refusal(
    state: &AnySetup,
    class: ErrorClass,
    offending: Offending,
    values: Octets,
) -> ErrorBody
    requires units { length values % 8 ≡ 0 }
    requires few { length values ≤ 65528 }
    ensures error { result ≡ refusal_of state.now class offending values }
    ensures said { ¬ (IsTooLong Lsb (AnError result)) }
{
    let severity = if state.connected() {
        Severity::CanContinue
    } else {
        Severity::FatalToConnection
    };
    error_of(severity, class, offending, values)
}

/// What is refused in a state, with values that fill units of 8 bytes. Before ConnectionReply was
/// sent that ends the connection, and later the state is the same.
fn refuse(state: AnySetup, class: ErrorClass, offending: Offending, values: Octets) -> Moved
    requires units { length values % 8 ≡ 0 }
    requires few { length values ≤ 65528 }
    ensures moved { result ≡ refuses state class offending values }
    ensures said { CanBeSaid result }
{
    let error = IceMessage::Error(refusal(&state, class, offending, values));
    if state.connected() {
        return Moved::Goes(state, Some(error));
    }
    Moved::Ends(Some(error))
}

/// A message that has no place in the state.
pub fn out_of_place(alloc: Global, state: AnySetup, offending: Offending) -> Moved
    ensures { result ≡ out_of_place_spec state offending }
{
    refuse(state, ErrorClass::BadState, offending, Octets::new(alloc))
}

fn wants_to_close(state: AnySetup) -> Moved
    ensures answer { result ≡ wants_to_close_spec state }
    ensures said { CanBeSaid result }
{
    match state {
        AnySetup::Ready(state) => Moved::Ask(AnySetup::Ready(state)),
        _ => Moved::Close,
    }
}

/// What every state behind the first does about a message that it has no cell for.
pub fn take_other(
    alloc: Global,
    state: AnySetup,
    message: &IceMessage,
    offending: Offending,
) -> Moved
    ensures answer { result ≡ other_cell state message.now offending }
    ensures said { CanBeSaid result }
{
    match message {
        IceMessage::Ping => Moved::Goes(state, Some(IceMessage::PingReply)),
        IceMessage::Error(_) => Moved::Goes(state, None),
        IceMessage::WantToClose => wants_to_close(state),
        _ => out_of_place(alloc, state, offending),
    }
}
