ghost use Rattle.std.specs.Prelude.{◌≡◌, ◌++◌, map, IfOk, OnOk, false, ◌||◌};
ghost use Rattle.std.specs.List.{list_any};
ghost use Rattle.client_quirks.specs.Meanings.{amended as amended_by, is_amended as is_amended_by};
ghost use Rattle.frame_speech.specs.Speech.{reading as reading_by, after as after_reading, speech_behind};
ghost use Rattle.client_quirks.specs.Speech.{is_changed, spelled_anew, handed_on, are_changed, is_respelled, set_anew, meant_by, bytes_in};

use crate::meanings::{amended, is_amended};
use frame_speech::{Reading, Speech, byte_at};
use ice_framing::WholeFrame;
use ice_values::{EncodeRefusal, Property, PropertyList};
use owned_lists::{NoMemory, Octets};
use std::alloc::Global;
use xsmp_messages::{XsmpMessage, encode_xsmp};

fn are_amended(properties: &[Property]) -> bool
    ensures { result ≡ list_any is_amended_by properties.now }
{
    properties.iter().any(|property| is_amended(property))
}

/// The properties as they are meant.
fn amended_list(alloc: Global, properties: &[Property]) -> Result<PropertyList, NoMemory>
    ensures { IfOk result (λ list. list ≡ map amended_by properties.now) }
{
    let mut list = PropertyList::new(alloc);
    for property in properties {
        list.push(amended(alloc, property)?)?;
    }
    Ok(list)
}

/// The message that sets the properties as they are meant, where a rule applies to one of them.
fn meant_message(alloc: Global, properties: &[Property]) -> Result<Option<XsmpMessage>, NoMemory>
    ensures { IfOk result (λ message. message ≡ meant_by properties.now) }
{
    if !are_amended(properties) {
        return Ok(None);
    }
    let properties = amended_list(alloc, properties)?;
    Ok(Some(XsmpMessage::SetProperties { properties }))
}

/// Adds a frame that sets properties as it is handed on, and says whether it is spelled anew.
fn add_setting(
    alloc: Global,
    frame: &WholeFrame,
    properties: &[Property],
    out: &mut Octets,
) -> Result<bool, NoMemory>
    ensures changed { IfOk result (λ changed.
        changed ≡ is_respelled frame.now.endian properties.now) }
    ensures added { OnOk result (out.new ≡ out.old ++ set_anew frame.now properties.now) }
{
    let bytes = frame.bytes.as_slice();
    let Some(message) = meant_message(alloc, properties)? else {
        out.append(bytes)?;
        return Ok(false);
    };
    match encode_xsmp(frame.endian, byte_at(bytes, 0), &message, out) {
        Ok(()) => Ok(true),
        Err(EncodeRefusal::NoMemory) => Err(NoMemory),
        Err(EncodeRefusal::TooLong) => {
            out.append(bytes)?;
            Ok(false)
        }
    }
}

/// What a frame brought.
#[derive(Clone, Copy, Debug)]
pub struct Handed {
    /// How far the stream is understood behind it.
    pub speech: Speech,
    /// Whether it was spelled anew.
    pub changed: bool,
}

impl Handed {
    /// What several frames brought, and then one more.
    fn and_then(self, next: Handed) -> Handed
        ensures speech { result.speech ≡ next.speech }
        ensures changed { result.changed ≡ (self.changed || next.changed) }
    {
        Handed {
            speech: next.speech,
            changed: self.changed || next.changed,
        }
    }
}

/// Adds a frame as it is handed on.
fn add_frame(
    alloc: Global,
    speech: Speech,
    frame: &WholeFrame,
    out: &mut Octets,
) -> Result<Handed, NoMemory>
    ensures speech { IfOk result (λ handed.
        handed.speech ≡ after_reading speech (reading_by speech frame.now)) }
    ensures changed { IfOk result (λ handed.
        handed.changed ≡ is_changed frame.now (reading_by speech frame.now)) }
    ensures added { OnOk result
        (out.new ≡ out.old ++ spelled_anew frame.now (reading_by speech frame.now)) }
{
    let reading = speech.reading(alloc, frame)?;
    let after = speech.after(&reading);
    let changed = match &reading {
        Reading::Sets(properties) => add_setting(alloc, frame, properties.as_slice(), out)?,
        Reading::Nothing => add_as_it_is(frame, out)?,
        Reading::Greets => add_as_it_is(frame, out)?,
        Reading::Opens(_) => add_as_it_is(frame, out)?,
        Reading::Unread => add_as_it_is(frame, out)?,
    };
    Ok(Handed {
        speech: after,
        changed,
    })
}

/// Adds a frame that isn't changed.
fn add_as_it_is(frame: &WholeFrame, out: &mut Octets) -> Result<bool, NoMemory>
    ensures changed { IfOk result (λ changed. changed ≡ false) }
    ensures added { OnOk result (out.new ≡ out.old ++ frame.now.bytes) }
{
    out.append(frame.bytes.as_slice())?;
    Ok(false)
}

/// Adds the next frames of a stream as they are handed on.
pub fn add_frames(
    alloc: Global,
    speech: Speech,
    frames: &[WholeFrame],
    out: &mut Octets,
) -> Result<Handed, NoMemory>
    ensures speech { IfOk result (λ handed. handed.speech ≡ speech_behind speech frames.now) }
    ensures changed { IfOk result (λ handed. handed.changed ≡ are_changed speech frames.now) }
    ensures added { OnOk result (out.new ≡ out.old ++ handed_on speech frames.now) }
{
    let mut so_far = Handed {
        speech,
        changed: false,
    };
    for frame in frames {
        let next = add_frame(alloc, so_far.speech, frame, out)?;
        so_far = so_far.and_then(next);
    }
    Ok(so_far)
}

/// The bytes of these frames, one behind the other.
pub fn bytes_of(alloc: Global, frames: &[WholeFrame]) -> Result<Octets, NoMemory>
    ensures { IfOk result (λ bytes. bytes ≡ bytes_in frames.now) }
{
    let mut bytes = Octets::new(alloc);
    for frame in frames {
        bytes.append(frame.bytes.as_slice())?;
    }
    Ok(bytes)
}
