ghost use Rattle.std.specs.Prelude.{◌≡◌, IfOk};
ghost use Rattle.std.specs.List.{AllByRecursion};
ghost use Rattle.trace_replay.specs.Parts.{IsHeaded};
ghost use Rattle.trace_reading.specs.Programs.{after_frame, after_message, after_property, after_properties, first_of};

use ice_framing::WholeFrame;
use ice_values::{Array8, Property};
use owned_lists::{NoMemory, Octets};
use std::alloc::Global;
use trace_replay::xsmp_in;
use xsmp_messages::XsmpMessage;

/// The first of some values.
fn first_of(alloc: Global, values: &[Array8]) -> Result<Option<Octets>, NoMemory>
    ensures { IfOk result (λ first. first ≡ first_of values.now) }
{
    match values.first() {
        Some(value) => Ok(Some(Octets::from_slice(alloc, value.as_slice())?)),
        None => Ok(None),
    }
}

/// The program that is known behind a property.
fn after_property(
    alloc: Global,
    property: &Property,
    known: Option<Octets>,
) -> Result<Option<Octets>, NoMemory>
    ensures { IfOk result (λ after. after ≡ after_property known property.now) }
{
    if property.name.as_slice() == b"Program".as_slice() {
        first_of(alloc, property.values.as_slice())
    } else {
        Ok(known)
    }
}

/// The program that is known behind some properties.
fn after_properties(
    alloc: Global,
    properties: &[Property],
    known: Option<Octets>,
) -> Result<Option<Octets>, NoMemory>
    ensures { IfOk result (λ after. after ≡ after_properties known properties.now) }
{
    let mut program = known;
    for property in properties {
        program = after_property(alloc, property, program)?;
    }
    Ok(program)
}

/// The program that is known behind a message.
fn after_message(
    alloc: Global,
    message: &XsmpMessage,
    known: Option<Octets>,
) -> Result<Option<Octets>, NoMemory>
    ensures { IfOk result (λ after. after ≡ after_message known message.now) }
{
    match message {
        XsmpMessage::SetProperties { properties } => after_properties(
            alloc,
            properties.as_slice(),
            known,
        ),
        _ => Ok(known),
    }
}

/// The program by which a client is known behind a frame that it sent.
pub fn after_frame(
    alloc: Global,
    frame: &WholeFrame,
    known: Option<Octets>,
) -> Result<Option<Octets>, NoMemory>
    requires { IsHeaded frame.now }
    ensures { IfOk result (λ after. after ≡ after_frame known frame.now) }
{
    match xsmp_in(alloc, frame)? {
        Some(message) => after_message(alloc, &message, known),
        None => Ok(known),
    }
}
