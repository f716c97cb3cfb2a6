ghost use Rattle.std.specs.Prelude.{◌≡◌, ◌≤◌, length, IfOk};
ghost use Rattle.ice_setup.specs.Opener.{CanBeSaid as MovesWithin, opened};
ghost use Rattle.client_engine.specs.Hearing.{fatal_class as fatal_class_spec, joined_moved, opening_at, opening_heard, opening_moved, saying, out_of_place as out_of_place_spec, stray, unless_fatal};
ghost use Rattle.client_engine.specs.Messages.{AreShort, CanBeSaid, answer_of};
ghost use Rattle.client_engine.specs.Places.{HasShortId};
ghost use Rattle.client_engine.specs.Speaking.{HasPlace};

use crate::hearing::{Cue, Heard};
use crate::messages::{answers, one};
use crate::place::{Arrival, Place};
use crate::received::Received;
use client_machine::Client;
use ice_messages::IceMessage;
use ice_setup::{AnyOpener, Joined, Offending, OpenMoved, error_of};
use ice_values::{Array8, ErrorBody, ErrorClass, Severity};
use owned_lists::{NoMemory, Octets};
use protocol_messages::Message;
use std::alloc::Global;

/// The Error for a message that has no place.
pub(crate) fn out_of_place(alloc: Global, offending: Offending) -> ErrorBody
    ensures { result ≡ out_of_place_spec offending }
{
    error_of(
        Severity::CanContinue,
        ErrorClass::BadState,
        offending,
        Octets::new(alloc),
    )
}

/// The class of an Error that is fatal.
fn fatal_class(message: &IceMessage) -> Option<u16>
    ensures { result ≡ fatal_class_spec message.now }
{
    match message {
        IceMessage::Error(error) => match error.severity {
            Severity::CanContinue => None,
            Severity::FatalToProtocol => Some(error.class),
            Severity::FatalToConnection => Some(error.class),
        },
        _ => None,
    }
}

/// Refuses a message of XSMP under an opcode that nobody has.
pub(crate) fn take_stray(alloc: Global, arrival: Arrival, place: Place) -> Result<Heard, NoMemory>
    requires short { HasShortId place }
    ensures heard { IfOk result (λ heard. heard ≡ stray arrival place) }
    ensures said { IfOk result (λ heard. AreShort heard.said) }
    ensures short { IfOk result (λ heard. HasShortId heard.next.place) }
    ensures asked { IfOk result (λ heard. HasPlace heard.cue heard.next.place) }
{
    let error = IceMessage::Error(out_of_place(alloc, arrival.offending));
    let said = one(alloc, Message::Ice(error))?;
    Ok(arrival.says(said, place))
}

/// The set-up has come this far, and a client that has joined registers.
fn open_at(
    alloc: Global,
    arrival: Arrival,
    previous: Array8,
    opener: AnyOpener,
    answer: Option<IceMessage>,
) -> Result<Heard, NoMemory>
    requires short { length previous ≤ 512 }
    requires said { CanBeSaid answer }
    ensures heard { IfOk result (λ heard.
        heard ≡ opening_at arrival previous opener (answer_of answer)) }
    ensures said { IfOk result (λ heard. AreShort heard.said) }
    ensures short { IfOk result (λ heard. HasShortId heard.next.place) }
    ensures asked { IfOk result (λ heard. HasPlace heard.cue heard.next.place) }
{
    let mut said = answers(alloc, answer)?;
    match opener {
        AnyOpener::Joined(joined) => {
            let (client, message) = Client::register(alloc, previous)?;
            said.push(Message::Xsmp(message))?;
            Ok(arrival.says(said, Place::Speaking(joined, client)))
        }
        AnyOpener::OpenOrder(_) => Ok(arrival.says(said, Place::Opening(opener, previous))),
        AnyOpener::OpenSetup(_) => Ok(arrival.says(said, Place::Opening(opener, previous))),
        AnyOpener::OpenProtocol(_) => Ok(arrival.says(said, Place::Opening(opener, previous))),
    }
}

/// The client says its last answer, if there is one, and takes nothing more.
fn stop(alloc: Global, arrival: Arrival, answer: Option<IceMessage>) -> Result<Heard, NoMemory>
    requires { CanBeSaid answer }
    ensures heard { IfOk result (λ heard.
        heard ≡ saying (answer_of answer) arrival.counts Place.Stopped) }
    ensures said { IfOk result (λ heard. AreShort heard.said) }
    ensures short { IfOk result (λ heard. HasShortId heard.next.place) }
    ensures asked { IfOk result (λ heard. HasPlace heard.cue heard.next.place) }
{
    let said = answers(alloc, answer)?;
    Ok(arrival.says(said, Place::Stopped))
}

/// What a message of the set-up brought.
fn open_moved(
    alloc: Global,
    arrival: Arrival,
    previous: Array8,
    moved: OpenMoved,
) -> Result<Heard, NoMemory>
    requires short { length previous ≤ 512 }
    requires said { MovesWithin moved }
    ensures heard { IfOk result (λ heard. heard ≡ opening_moved arrival previous moved) }
    ensures said { IfOk result (λ heard. AreShort heard.said) }
    ensures short { IfOk result (λ heard. HasShortId heard.next.place) }
    ensures asked { IfOk result (λ heard. HasPlace heard.cue heard.next.place) }
{
    match moved {
        OpenMoved::Goes(opener, answer) => open_at(alloc, arrival, previous, opener, answer),
        OpenMoved::Ends(answer) => stop(alloc, arrival, answer),
    }
}

/// Takes a message of the set-up.
fn open_by(
    alloc: Global,
    arrival: Arrival,
    opener: AnyOpener,
    previous: Array8,
    message: IceMessage,
) -> Result<Heard, NoMemory>
    requires { length previous ≤ 512 }
    ensures heard { IfOk result (λ heard.
        heard ≡ unless_fatal arrival (fatal_class_spec message)
        (opening_moved arrival previous (opened opener message arrival.offending.sequence))) }
    ensures said { IfOk result (λ heard. AreShort heard.said) }
    ensures short { IfOk result (λ heard. HasShortId heard.next.place) }
    ensures asked { IfOk result (λ heard. HasPlace heard.cue heard.next.place) }
{
    if let Some(class) = fatal_class(&message) {
        return Ok(arrival.cues(alloc, Cue::Refused(class), Place::Stopped));
    }
    match opener.take(alloc, message, arrival.offending.sequence) {
        Ok(moved) => open_moved(alloc, arrival, previous, moved),
        Err((_, NoMemory)) => Err(NoMemory),
    }
}

/// Takes a frame while the connection is set up.
pub(crate) fn take_opening(
    alloc: Global,
    arrival: Arrival,
    opener: AnyOpener,
    previous: Array8,
    received: Received,
) -> Result<Heard, NoMemory>
    requires { length previous ≤ 512 }
    ensures heard { IfOk result (λ heard. heard ≡ opening_heard arrival opener previous received) }
    ensures said { IfOk result (λ heard. AreShort heard.said) }
    ensures short { IfOk result (λ heard. HasShortId heard.next.place) }
    ensures asked { IfOk result (λ heard. HasPlace heard.cue heard.next.place) }
{
    match received {
        Received::Ice(message) => open_by(alloc, arrival, opener, previous, message),
        Received::Xsmp(_) => take_stray(alloc, arrival, Place::Opening(opener, previous)),
        Received::Stray => take_stray(alloc, arrival, Place::Opening(opener, previous)),
        Received::Unspelled => {
            Ok(arrival.cues(alloc, Cue::Malformed(arrival.at), Place::Stopped))
        }
    }
}

/// What a message of ICE brought a client that has joined.
fn joined_by(
    alloc: Global,
    arrival: Arrival,
    joined: Joined,
    client: Client,
    moved: OpenMoved,
) -> Result<Heard, NoMemory>
    requires { MovesWithin moved }
    ensures heard { IfOk result (λ heard. heard ≡ joined_moved arrival joined client moved) }
    ensures said { IfOk result (λ heard. AreShort heard.said) }
    ensures short { IfOk result (λ heard. HasShortId heard.next.place) }
    ensures asked { IfOk result (λ heard. HasPlace heard.cue heard.next.place) }
{
    match moved {
        OpenMoved::Goes(_, answer) => {
            let said = answers(alloc, answer)?;
            Ok(arrival.says(said, Place::Speaking(joined, client)))
        }
        OpenMoved::Ends(answer) => stop(alloc, arrival, answer),
    }
}

/// Takes a message of ICE once the client has joined.
pub(crate) fn take_ice(
    alloc: Global,
    arrival: Arrival,
    joined: Joined,
    client: Client,
    message: IceMessage,
) -> Result<Heard, NoMemory>
    ensures heard { IfOk result (λ heard.
        heard ≡ unless_fatal arrival (fatal_class_spec message)
        (joined_moved arrival joined client
        (opened (AnyOpener.Joined joined) message arrival.offending.sequence))) }
    ensures said { IfOk result (λ heard. AreShort heard.said) }
    ensures short { IfOk result (λ heard. HasShortId heard.next.place) }
    ensures asked { IfOk result (λ heard. HasPlace heard.cue heard.next.place) }
{
    if let Some(class) = fatal_class(&message) {
        return Ok(arrival.cues(alloc, Cue::Refused(class), Place::Stopped));
    }
    match joined.take(alloc, message, arrival.offending.sequence) {
        Ok(moved) => joined_by(alloc, arrival, joined, client, moved),
        Err((_, NoMemory)) => Err(NoMemory),
    }
}
