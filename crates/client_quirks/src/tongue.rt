ghost use Rattle.std.specs.Prelude.{◌≡◌, ◌++◌, ◌&&◌, if◌then◌else◌, None, IfOk, OnOk};
ghost use Rattle.std.specs.Result.{result_ok};
ghost use Rattle.ice_values.specs.Frames.{IsFrame};
ghost use Rattle.xsmp_messages.specs.Reading.{decode_at};
ghost use Rattle.frame_speech.specs.Speech.{is_whole as is_whole_by};
ghost use Rattle.client_quirks.specs.Exchange.{is_about_saves as about_by, is_turn as is_turn_by, is_heeded as is_heeded_by, is_about as is_about_by, is_reply as is_reply_by, is_speaking as is_speaking_by, message_in as message_by, spelled as spelled_by, word_bytes, save_bytes, ping, going_out};
ghost use Rattle.client_quirks.specs.Stood.{is_xsmp as is_xsmp_by, xsmp_in as xsmp_by, line_bytes};
ghost use Rattle.late_answers.specs.declared.leaver.Line.TheVariants.{AsksToSave};

use frame_speech::{Speech, byte_at, is_whole};
use ice_framing::WholeFrame;
use ice_values::{DecodeRefusal, EncodeRefusal, Endian, SaveKind, SaveStyle};
use late_answers::{Late, Line, Outgoing, Word};
use owned_lists::{NoMemory, Octets};
use round_agreement::Wanted;
use std::alloc::Global;
use xsmp_messages::{XsmpMessage, decode_xsmp, encode_xsmp};

/// A Ping of ICE.
const PING: [u8; 8] = [0, 9, 0, 0, 0, 0, 0, 0];

/// How a party is understood, and the order of its numbers: so it is spoken for.
#[derive(Clone, Copy, Debug, PartialEq, Eq)]
pub struct Tongue {
    pub speech: Speech,
    pub order: Endian,
}

/// Whether messages of this minor opcode are about a save, give a client its ID or are a client's last.
fn is_about_saves(minor: u8) -> bool
    ensures { result ≡ about_by minor }
{
    2 <= minor && minor <= 11 || 16 <= minor
}

/// Whether a frame gives a client its ID, tells it to die, or asks it to save for a logout.
fn is_turn(frame: &[u8]) -> bool
    ensures { result ≡ is_turn_by frame.now }
{
    let minor = byte_at(frame, 1);
    minor == 2 || minor == 9 || minor == 3 && byte_at(frame, 9) == 1
}

fn is_heeded(calm: bool, frame: &[u8]) -> bool
    ensures { result ≡ is_heeded_by calm frame.now }
{
    if calm {
        is_turn(frame)
    } else {
        is_about_saves(byte_at(frame, 1))
    }
}

/// Whether a party's frame is looked at. Where its client is calm, few are.
pub fn is_about(calm: bool, speech: Speech, frame: &[u8]) -> bool
    ensures { result ≡ is_about_by calm speech frame.now }
{
    match speech {
        Speech::Silent => false,
        Speech::Greeted => false,
        Speech::Speaks(opcode) => byte_at(frame, 0) == opcode && is_heeded(calm, frame),
        Speech::Lost => false,
    }
}

/// Whether a party speaks XSMP.
pub fn is_speaking(speech: Speech) -> bool
    ensures { result ≡ is_speaking_by speech }
{
    match speech {
        Speech::Silent => false,
        Speech::Greeted => false,
        Speech::Speaks(_) => true,
        Speech::Lost => false,
    }
}

/// Whether a party that speaks XSMP answers a Ping.
pub fn is_reply(speech: Speech, frame: &[u8]) -> bool
    ensures { result ≡ is_reply_by speech frame.now }
{
    is_speaking(speech) && byte_at(frame, 0) == 0 && byte_at(frame, 1) == 10
}

/// The message that a frame spells, if it spells one.
fn read(alloc: Global, endian: Endian, frame: &[u8]) -> Result<Option<XsmpMessage>, NoMemory>
    requires { IsFrame endian frame.now }
    ensures { IfOk result (λ message. message ≡ result_ok (decode_at endian frame.now)) }
{
    match decode_xsmp(alloc, endian, frame) {
        Ok(message) => Ok(Some(message)),
        Err(DecodeRefusal::BadMinor) => Ok(None),
        Err(DecodeRefusal::BadLength) => Ok(None),
        Err(DecodeRefusal::BadValue { .. }) => Ok(None),
        Err(DecodeRefusal::NoMemory) => Err(NoMemory),
    }
}

/// The message that a frame is, where it is looked at and can be read.
fn read_where(
    alloc: Global,
    looked_at: bool,
    frame: &WholeFrame,
) -> Result<Option<XsmpMessage>, NoMemory>
    ensures { IfOk result (λ message. message
        ≡ if is_whole_by frame.now && looked_at
        then result_ok (decode_at frame.now.endian frame.now.bytes) else None) }
{
    if !is_whole(frame) {
        return Ok(None);
    }
    if looked_at {
        read(alloc, frame.endian, frame.bytes.as_slice())
    } else {
        Ok(None)
    }
}

/// The message that a frame is about saves, where its client's are looked at.
pub fn message_in(
    alloc: Global,
    calm: bool,
    speech: Speech,
    frame: &WholeFrame,
) -> Result<Option<XsmpMessage>, NoMemory>
    ensures { IfOk result (λ message. message ≡ message_by calm speech frame.now) }
{
    read_where(alloc, is_about(calm, speech, frame.bytes.as_slice()), frame)
}

fn is_xsmp(speech: Speech, frame: &[u8]) -> bool
    ensures { result ≡ is_xsmp_by speech frame.now }
{
    match speech {
        Speech::Silent => false,
        Speech::Greeted => false,
        Speech::Speaks(opcode) => byte_at(frame, 0) == opcode,
        Speech::Lost => false,
    }
}

/// The message of XSMP that a frame is.
pub fn xsmp_in(
    alloc: Global,
    speech: Speech,
    frame: &WholeFrame,
) -> Result<Option<XsmpMessage>, NoMemory>
    ensures { IfOk result (λ message. message ≡ xsmp_by speech frame.now) }
{
    read_where(alloc, is_xsmp(speech, frame.bytes.as_slice()), frame)
}

impl Tongue {
    /// Adds a message that is said in the party's place.
    fn put(self, message: &XsmpMessage, out: &mut Octets) -> Result<(), NoMemory>
        ensures { OnOk result (out.new ≡ out.old ++ spelled_by self message.now) }
    {
        match self.speech {
            Speech::Speaks(opcode) => match encode_xsmp(self.order, opcode, message, out) {
                Ok(()) => Ok(()),
                // No message that is said so is too long.
                Err(_) => Err(NoMemory),
            },
            Speech::Silent => Ok(()),
            Speech::Greeted => Ok(()),
            Speech::Lost => Ok(()),
        }
    }

    /// Adds a word that is said in the party's place, if there is one.
    pub fn put_word(self, word: Option<Word>, out: &mut Octets) -> Result<(), NoMemory>
        ensures { OnOk result (out.new ≡ out.old ++ word_bytes self word) }
    {
        match word {
            Some(word) => self.put(&word.message(), out),
            None => Ok(()),
        }
    }

    /// Adds the request for a save of the party alone.
    fn put_request(self, out: &mut Octets) -> Result<(), NoMemory>
        ensures { OnOk result (out.new ≡ out.old ++ line_bytes self AsksToSave) }
    {
        let request = XsmpMessage::SaveYourselfRequest {
            kind: SaveKind::Local,
            shutdown: false,
            style: SaveStyle::Nothing,
            fast: false,
            global: false,
        };
        self.put(&request, out)
    }

    /// Adds what the manager hears of a client that has left.
    pub fn put_line(self, line: Line, out: &mut Octets) -> Result<(), NoMemory>
        ensures { OnOk result (out.new ≡ out.old ++ line_bytes self line) }
    {
        match line {
            Line::Nothing => Ok(()),
            Line::Saved => self.put(&XsmpMessage::SaveYourselfDone { success: true }, out),
            Line::TalkedAndSaved => {
                self.put(&XsmpMessage::InteractDone { cancel: false }, out)?;
                self.put(&XsmpMessage::SaveYourselfDone { success: true }, out)
            }
            Line::AsksToSave => self.put_request(out),
            Line::FailedAndAsks => {
                self.put(&XsmpMessage::SaveYourselfDone { success: false }, out)?;
                self.put_request(out)
            }
            Line::AsksForProperties => self.put(&XsmpMessage::GetProperties, out),
        }
    }

    /// Adds the SaveYourself of a round.
    fn put_save(self, wanted: Option<Wanted>, out: &mut Octets) -> Result<(), NoMemory>
        ensures { OnOk result (out.new ≡ out.old ++ save_bytes self wanted) }
    {
        match wanted {
            Some(wanted) => {
                let message = XsmpMessage::SaveYourself {
                    kind: wanted.kind,
                    shutdown: wanted.shutdown,
                    style: wanted.style,
                    fast: wanted.fast,
                };
                self.put(&message, out)
            }
            None => Ok(()),
        }
    }

    /// Adds what goes out of a frame with these bytes, by what is known then.
    pub fn put_outgoing(
        self,
        outgoing: Outgoing,
        frame: &[u8],
        late: Late,
        out: &mut Octets,
    ) -> Result<(), NoMemory>
        ensures { OnOk result (out.new ≡ out.old ++ going_out self outgoing frame.now late) }
    {
        match outgoing {
            Outgoing::Itself => out.append(frame),
            Outgoing::BehindPing => {
                out.append(&PING)?;
                out.append(frame)
            }
            Outgoing::HeldSave => {
                out.append(&PING)?;
                self.put_save(late.wanted, out)
            }
            Outgoing::NoBytes => Ok(()),
        }
    }
}
