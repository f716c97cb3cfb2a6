ghost use Rattle.std.specs.Prelude.{◌≡◌, ◌++◌, [], IfOk, OnOk, if◌then◌else◌};
ghost use Rattle.frame_speech.specs.Speech.{reading as reading_by, after as after_reading, speech_behind};
ghost use Rattle.client_quirks.specs.Exchange.{tongue, said_in as said_by, told_in as told_by, handed_of, going_out, word_bytes, heard_all, told_all};

use crate::tongue::{Tongue, is_reply, message_in};
use frame_speech::Speech;
use ice_framing::WholeFrame;
use late_answers::{Late, Outcome, Said};
use owned_lists::{NoMemory, Octets};
use std::alloc::Global;

/// How far a party is understood, and what is known of the client.
#[derive(Clone, Copy, Debug)]
pub struct Standpoint {
    pub speech: Speech,
    pub late: Late,
}

/// What is done about a frame of the client's.
fn said_in(alloc: Global, speech: Speech, frame: &WholeFrame, late: Late) -> Result<Said, NoMemory>
    ensures { IfOk result (λ said. said ≡ said_by speech frame.now late) }
{
    if is_reply(speech, frame.bytes.as_slice()) {
        return Ok(late.replied());
    }
    match message_in(alloc, late.is_calm(), speech, frame)? {
        Some(message) => Ok(late.said(&message)),
        None => Ok(Said::passing(late)),
    }
}

/// What is done about a frame of the manager's.
fn told_in(
    alloc: Global,
    speech: Speech,
    frame: &WholeFrame,
    late: Late,
) -> Result<Outcome, NoMemory>
    ensures { IfOk result (λ outcome. outcome ≡ told_by speech frame.now late) }
{
    match message_in(alloc, late.is_calm(), speech, frame)? {
        Some(message) => Ok(late.told(&message)),
        None => Ok(Outcome::as_it_came(late)),
    }
}

/// Adds what the manager hears of a frame of the client's.
fn put_handed(client: Tongue, said: Said, frame: &[u8], handed: &mut Octets) -> Result<(), NoMemory>
    ensures { OnOk result (handed.new ≡ handed.old ++ handed_of client said frame.now) }
{
    client.put_word(said.word, handed)?;
    if said.passes {
        handed.append(frame)
    } else {
        Ok(())
    }
}

/// Hears a frame of the client's.
fn hear_frame(
    alloc: Global,
    manager: Tongue,
    at: Standpoint,
    frame: &WholeFrame,
    handed: &mut Octets,
    going: &mut Octets,
) -> Result<Standpoint, NoMemory>
    ensures speech { IfOk result (λ next.
        next.speech ≡ after_reading at.speech (reading_by at.speech frame.now)) }
    ensures late { IfOk result (λ next. next.late ≡ (said_by at.speech frame.now at.late).late) }
    ensures handed { OnOk result (handed.new ≡ handed.old
        ++ handed_of (tongue at.speech frame.now.endian)
        (said_by at.speech frame.now at.late) frame.now.bytes) }
    ensures going { OnOk result (going.new ≡ going.old
        ++ going_out manager (said_by at.speech frame.now at.late).outgoing []
        (said_by at.speech frame.now at.late).late) }
{
    let reading = at.speech.reading(alloc, frame)?;
    let said = said_in(alloc, at.speech, frame, at.late)?;
    let client = Tongue {
        speech: at.speech,
        order: frame.endian,
    };
    put_handed(client, said, frame.bytes.as_slice(), handed)?;
    manager.put_outgoing(said.outgoing, &[], said.late, going)?;
    Ok(Standpoint {
        speech: at.speech.after(&reading),
        late: said.late,
    })
}

/// Hears frames of the client's, one after another: adds what the manager hears of them, and what goes
/// out to the client.
pub fn hear_frames(
    alloc: Global,
    manager: Tongue,
    from: Standpoint,
    frames: &[WholeFrame],
    handed: &mut Octets,
    going: &mut Octets,
) -> Result<Standpoint, NoMemory>
    ensures speech { IfOk result (λ next. next.speech ≡ speech_behind from.speech frames.now) }
    ensures late { IfOk result (λ next.
        next.late ≡ (heard_all manager from.speech from.late frames.now).late) }
    ensures handed { OnOk result (handed.new
        ≡ handed.old ++ (heard_all manager from.speech from.late frames.now).handed) }
    ensures going { OnOk result (going.new
        ≡ going.old ++ (heard_all manager from.speech from.late frames.now).going) }
{
    let mut at = from;
    for frame in frames {
        at = hear_frame(alloc, manager, at, frame, handed, going)?;
    }
    Ok(at)
}

/// Tells a frame of the manager's.
fn tell_frame(
    alloc: Global,
    client: Tongue,
    at: Standpoint,
    frame: &WholeFrame,
    handed: &mut Octets,
    going: &mut Octets,
) -> Result<Standpoint, NoMemory>
    ensures speech { IfOk result (λ next.
        next.speech ≡ after_reading at.speech (reading_by at.speech frame.now)) }
    ensures late { IfOk result (λ next. next.late ≡ (told_by at.speech frame.now at.late).late) }
    ensures handed { OnOk result (handed.new
        ≡ handed.old ++ word_bytes client (told_by at.speech frame.now at.late).word) }
    ensures going { OnOk result (going.new ≡ going.old
        ++ going_out (tongue at.speech frame.now.endian)
        (told_by at.speech frame.now at.late).outgoing frame.now.bytes
        (told_by at.speech frame.now at.late).late) }
{
    let reading = at.speech.reading(alloc, frame)?;
    let told = told_in(alloc, at.speech, frame, at.late)?;
    let manager = Tongue {
        speech: at.speech,
        order: frame.endian,
    };
    client.put_word(told.word, handed)?;
    manager.put_outgoing(told.outgoing, frame.bytes.as_slice(), told.late, going)?;
    Ok(Standpoint {
        speech: at.speech.after(&reading),
        late: told.late,
    })
}

/// Tells frames of the manager's, one after another: adds what it hears in the client's place, and what
/// goes out to the client.
pub fn tell_frames(
    alloc: Global,
    client: Tongue,
    from: Standpoint,
    frames: &[WholeFrame],
    handed: &mut Octets,
    going: &mut Octets,
) -> Result<Standpoint, NoMemory>
    ensures speech { IfOk result (λ next. next.speech ≡ speech_behind from.speech frames.now) }
    ensures late { IfOk result (λ next.
        next.late ≡ (told_all client from.speech from.late frames.now).late) }
    ensures handed { OnOk result (handed.new
        ≡ handed.old ++ (told_all client from.speech from.late frames.now).handed) }
    ensures going { OnOk result (going.new
        ≡ going.old ++ (told_all client from.speech from.late frames.now).going) }
{
    let mut at = from;
    for frame in frames {
        at = tell_frame(alloc, client, at, frame, handed, going)?;
    }
    Ok(at)
}
