ghost use Rattle.std.specs.Prelude.{◌≡◌, ◌≤◌, true, length, IfOk, OnOk, option_to_list};
ghost use Rattle.ice_values.specs.Frames.{IsFrame, bool_meaning};
ghost use Rattle.std.specs.Result.{result_ok};
ghost use Rattle.xsmp_messages.specs.Reading.{decode_at, empty_at, flagged_at};
ghost use Rattle.xsmp_messages.specs.declared.message.XsmpMessage.TheVariants.{SaveComplete, SaveYourselfDone};
ghost use Rattle.xsmp_messages.specs.Views.{WalksOf};
ghost use Rattle.frame_speech.specs.Passing.{as_frame};
ghost use Rattle.frame_speech.specs.Settings.{set_in};
ghost use Rattle.frame_speech.specs.Speech.{is_whole, reading as reading_by, after as after_reading, speech_behind};
ghost use Rattle.session_watch.specs.Story.{IsNoMessage, spoken as spoken_by, messages_in};
ghost use Rattle.session_watch.specs.Knowing.{noted_all};

use crate::known::Known;
use crate::party::Party;
use frame_speech::{Heeds, Speech, byte_at, is_whole};
use ice_framing::WholeFrame;
use ice_values::{DecodeRefusal, Endian, PropertyWalk, no_body, value_at};
use owned_lists::NoMemory;
use std::alloc::Global;
use xsmp_messages::decode_xsmp;

/// The minor opcode of SaveYourselfDone.
const SAVE_YOURSELF_DONE: u8 = 8;

/// The minor opcode of SaveComplete.
const SAVE_COMPLETE: u8 = 18;

/// Looks for the messages of XSMP.
#[derive(Clone, Copy, Debug)]
pub struct Messages {
    pub speech: Speech,
}

impl Heeds for Messages {
    ghost ignores = { λ messages frame. IsNoMessage messages.speech frame };

    fn heeds(&self, _endian: Endian, frame: &[u8]) -> bool {
        match self.speech {
            Speech::Silent => true,
            Speech::Greeted => true,
            Speech::Speaks(opcode) => byte_at(frame, 0) == opcode,
            Speech::Lost => false,
        }
    }
}

/// Notes SaveYourselfDone, if a frame of its minor opcode spells it.
#[tactic(auto, unfolding(xsmp_messages::specs::Reading::flagged_at))]
fn note_saved(party: Party, frame: &[u8], known: &mut Known)
    requires { 8 ≤ length frame.now }
    ensures { known.new ≡ noted_all party (option_to_list
        (result_ok (flagged_at bool_meaning SaveYourselfDone frame.now))) known.old }
{
    match no_body(frame) {
        Ok(()) => match value_at::<bool>(frame, 2) {
            Ok(success) => match party {
                Party::Client => known.note_saved(success),
                Party::Manager => {}
            },
            Err(_) => {}
        },
        Err(_) => {}
    }
}

/// Notes SaveComplete, if a frame of its minor opcode spells it.
#[tactic(auto, unfolding(xsmp_messages::specs::Reading::valued_at))]
fn note_completed(party: Party, frame: &[u8], known: &mut Known)
    requires { 8 ≤ length frame.now }
    ensures { known.new ≡ noted_all party (option_to_list
        (result_ok (empty_at SaveComplete frame.now))) known.old }
{
    match no_body(frame) {
        Ok(()) => match party {
            Party::Client => {}
            Party::Manager => known.note_completed(),
        },
        Err(_) => {}
    }
}

/// Notes the message that a frame spells, if it spells one. The two of each round are read where they
/// lie.
#[inline(never)]
fn note_spelled(
    alloc: Global,
    party: Party,
    endian: Endian,
    frame: &[u8],
    known: &mut Known,
) -> Result<(), NoMemory>
    requires { IsFrame endian frame.now }
    ensures { OnOk result (known.new ≡ noted_all party
        (option_to_list (result_ok (decode_at endian frame.now))) known.old) }
{
    let minor = byte_at(frame, 1);
    if minor == SAVE_YOURSELF_DONE {
        note_saved(party, frame, known);
        return Ok(());
    }
    if minor == SAVE_COMPLETE {
        note_completed(party, frame, known);
        return Ok(());
    }
    note_read(alloc, party, endian, frame, known)
}

/// Notes the message that a frame spells, which is read into memory, if it spells one.
fn note_read(
    alloc: Global,
    party: Party,
    endian: Endian,
    frame: &[u8],
    known: &mut Known,
) -> Result<(), NoMemory>
    requires { IsFrame endian frame.now }
    ensures { OnOk result (known.new ≡ noted_all party
        (option_to_list (result_ok (decode_at endian frame.now))) known.old) }
{
    match decode_xsmp(alloc, endian, frame) {
        Ok(message) => known.note(alloc, party, &message),
        Err(DecodeRefusal::BadMinor) => Ok(()),
        Err(DecodeRefusal::BadLength) => Ok(()),
        Err(DecodeRefusal::BadValue { .. }) => Ok(()),
        Err(DecodeRefusal::NoMemory) => Err(NoMemory),
    }
}

/// Notes the message that a whole frame is, where its sender speaks XSMP and it can be read.
pub fn note_spoken(
    alloc: Global,
    party: Party,
    speech: Speech,
    endian: Endian,
    frame: &[u8],
    known: &mut Known,
) -> Result<(), NoMemory>
    requires frame { IsFrame endian frame.now }
    requires whole { is_whole (as_frame endian frame.now) ≡ true }
    ensures { OnOk result (known.new ≡ noted_all party
        (option_to_list (spoken_by speech (as_frame endian frame.now))) known.old) }
{
    match speech {
        Speech::Speaks(opcode) => {
            if byte_at(frame, 0) == opcode {
                note_spelled(alloc, party, endian, frame, known)
            } else {
                Ok(())
            }
        }
        Speech::Silent => Ok(()),
        Speech::Greeted => Ok(()),
        Speech::Lost => Ok(()),
    }
}

/// A walk over the properties that a frame sets. None where it sets none or isn't understood.
fn settings(speech: Speech, frame: &WholeFrame) -> Option<PropertyWalk<'_>>
    ensures { WalksOf frame.now.endian (set_in (reading_by speech frame.now)) result }
{
    if is_whole(frame) {
        speech.settings(frame.endian, frame.bytes.as_slice())
    } else {
        None
    }
}

/// Notes the message that a frame is, which is read into memory.
fn note_message(
    alloc: Global,
    party: Party,
    speech: Speech,
    frame: &WholeFrame,
    known: &mut Known,
) -> Result<(), NoMemory>
    ensures { OnOk result
        (known.new ≡ noted_all party (option_to_list (spoken_by speech frame.now)) known.old) }
{
    if is_whole(frame) {
        let bytes = frame.bytes.as_slice();
        note_spoken(alloc, party, speech, frame.endian, bytes, known)
    } else {
        Ok(())
    }
}

/// Notes the message that a frame is, and says how far its sender is understood behind it.
fn note_frame(
    alloc: Global,
    party: Party,
    speech: Speech,
    frame: &WholeFrame,
    known: &mut Known,
) -> Result<Speech, NoMemory>
    ensures speech { IfOk result (λ next.
        next ≡ after_reading speech (reading_by speech frame.now)) }
    ensures known { OnOk result
        (known.new ≡ noted_all party (option_to_list (spoken_by speech frame.now)) known.old) }
{
    match settings(speech, frame) {
        Some(walk) => {
            known.note_set(alloc, party, walk)?;
            Ok(speech)
        }
        None => {
            let reading = speech.reading(alloc, frame)?;
            note_message(alloc, party, speech, frame, known)?;
            Ok(speech.after(&reading))
        }
    }
}

/// Notes the messages of these frames, and says how far their sender is understood behind them.
pub fn note_frames(
    alloc: Global,
    party: Party,
    speech: Speech,
    frames: &[WholeFrame],
    known: &mut Known,
) -> Result<Speech, NoMemory>
    ensures speech { IfOk result (λ after. after ≡ speech_behind speech frames.now) }
    ensures known { OnOk result
        (known.new ≡ noted_all party (messages_in speech frames.now) known.old) }
{
    let mut speech = speech;
    for frame in frames {
        speech = note_frame(alloc, party, speech, frame, known)?;
    }
    Ok(speech)
}
