ghost use Rattle.std.specs.Prelude.{◌≡◌, ◌≤◌, ◌%◌, ◌&&◌, length, take, slice_index, true, not, ℕ, IfOk, IfSome};
ghost use Rattle.ice_messages.specs.Messages.{IsFrame};
ghost use Rattle.ice_messages.specs.Reading.{decode_at};
ghost use Rattle.ice_framing.specs.Frames.{byte_limit};
ghost use Rattle.xsmp_messages.specs.Reading.{decode_at as xsmp_at};
ghost use Rattle.ice_values.specs.declared.numbers.Endian.{Endian as AnyEndian};
ghost use Rattle.ice_setup.specs.Setup.{HasFittingBody, CanBeSaid as MovesWithin};
ghost use Rattle.session_engine.specs.Answers.{named_in, staying, closing, going, speaks_xsmp, outcome_of, message_outcome, refused, refused_xsmp, first_outcome, read_outcome, xsmp_outcome, later_outcome, frame_outcome, is_opcode as is_opcode_of, is_ordered, error_about as error_about_of, oversize_answer, said_in, IsSpelled};
ghost use Rattle.session_engine.specs.Bringing.{as_answer, as_outcome, as_taken};
ghost use Rattle.session_engine.specs.Messages.{CanBeSaid};

use ice_framing::{Frame, Splitter};
use ice_messages::{IceMessage, decode_ice};
use ice_setup::{
    AnySetup, AwaitOrder, Moved, Offending, error_of, opcode_values, refusal, wrong_byte_values,
};
use ice_values::{DecodeRefusal, Endian, ErrorBody, ErrorClass, Severity, read_card32};
use owned_lists::{NoMemory, Octets};
use protocol_messages::Message;
use std::alloc::Global;
use xsmp_messages::{ViewRefusal, XsmpMessage, XsmpView, view_xsmp};

/// What is done about one part of a client's stream that brings no message of XSMP.
#[derive(Drop)]
pub enum Answer {
    /// The message, if any, goes back, and the connection stays.
    Stays(Option<Message>),
    /// The message, if any, goes back, and XSMP has begun on the connection.
    Begins(Option<Message>),
    /// The message, if any, goes back, and the connection is closed.
    Closes(Option<Message>),
    /// The client wants to close, which the session decides.
    Asks,
}

/// What such a part brings.
#[derive(Drop)]
pub struct Outcome {
    /// How far the connection's set-up has come then.
    pub setup: AnySetup,
    pub answer: Answer,
}

/// What a whole frame brings.
#[derive(Drop)]
pub enum Taken<'a> {
    Brings(Outcome),
    /// A message of XSMP, where it lies. The session answers it, and the set-up stays as it is.
    Speaks(XsmpView<'a>),
}

impl Outcome {
    /// The connection goes on from here, and the message, if any, goes back.
    fn stays(setup: AnySetup, message: Option<Message>) -> Outcome
        ensures { as_outcome result ≡ staying setup message }
    {
        let answer = Answer::Stays(message);
        Outcome { setup, answer }
    }

    /// The connection goes on from here, after it was there; where XSMP is spoken and wasn't
    /// before, it has begun.
    fn goes(before: &AnySetup, setup: AnySetup, message: Option<Message>) -> Outcome
        ensures outcome { as_outcome result ≡ going (speaks_xsmp setup && not (speaks_xsmp before.now)) setup
            message }
        ensures said { CanBeSaid message → CanBeSaid (said_in (as_answer result.answer)) }
    {
        if setup.client_opcode().is_some() && !before.client_opcode().is_some() {
            let answer = Answer::Begins(message);
            return Outcome { setup, answer };
        }
        Outcome::stays(setup, message)
    }

    /// The message, if any, goes back, and the connection is closed.
    fn closes(setup: AnySetup, message: Option<Message>) -> Outcome
        ensures { as_outcome result ≡ closing setup message }
    {
        let answer = Answer::Closes(message);
        Outcome { setup, answer }
    }
}

/// What an Error names of a frame.
fn named(sequence: u32, frame: &[u8]) -> Offending
    requires { 8 ≤ length frame.now }
    ensures { result ≡ named_in frame.now sequence }
{
    Offending {
        minor: frame[1],
        sequence,
    }
}

/// What the set-up brings, as an outcome.
fn settle(before: AnySetup, moved: Moved) -> Outcome
    ensures outcome { as_outcome result ≡ outcome_of before moved }
    ensures said { MovesWithin moved → CanBeSaid (said_in (as_answer result.answer)) }
{
    match moved {
        Moved::Goes(setup, message) => Outcome::goes(&before, setup, message.map(Message::Ice)),
        Moved::Ends(message) => Outcome::closes(before, message.map(Message::Ice)),
        Moved::Close => Outcome::closes(before, None),
        Moved::Ask(_) => Outcome {
            setup: before,
            answer: Answer::Asks,
        },
    }
}

/// What is answered to a message of ICE while XSMP is spoken, where the set-up neither is asked nor
/// moves on.
fn answer_at_once(setup: &AnySetup, message: &IceMessage) -> Option<Answer>
    ensures outcome { IfSome result (λ answer. (sequence : ℕ) →
        message_outcome setup.now message.now sequence ≡ record { setup = setup.now; answer = as_answer answer }) }
    ensures said { IfSome result (λ answer. CanBeSaid (said_in (as_answer answer))) }
{
    if setup.client_opcode().is_none() {
        return None;
    }
    match message {
        IceMessage::Ping => Some(Answer::Stays(Some(Message::Ice(IceMessage::PingReply)))),
        IceMessage::Error(_) => Some(Answer::Stays(None)),
        IceMessage::WantToClose => Some(Answer::Asks),
        _ => None,
    }
}

/// Takes a message of ICE.
fn take_message(
    alloc: Global,
    setup: AnySetup,
    sequence: u32,
    message: IceMessage,
) -> Result<Outcome, NoMemory>
    ensures outcome { IfOk result (λ outcome. as_outcome outcome ≡ message_outcome setup message sequence) }
    ensures said { (e : AnyEndian) → HasFittingBody e message →
        IfOk result (λ outcome. CanBeSaid (said_in (as_answer outcome.answer))) }
{
    if let Some(answer) = answer_at_once(&setup, &message) {
        return Ok(Outcome { setup, answer });
    }
    match setup.take(alloc, message, sequence) {
        Ok(moved) => Ok(settle(setup, moved)),
        Err((_, NoMemory)) => Err(NoMemory),
    }
}

/// Refuses a frame, with values that fill units of 8 bytes. Before ConnectionReply was sent that
/// closes the connection.
fn refuse(setup: AnySetup, class: ErrorClass, offending: Offending, values: Octets) -> Outcome
    requires units { length values % 8 ≡ 0 }
    requires few { length values ≤ 65528 }
    ensures outcome { as_outcome result ≡ refused setup class offending values }
    ensures said { CanBeSaid (said_in (as_answer result.answer)) }
{
    let error = Message::Ice(IceMessage::Error(refusal(&setup, class, offending, values)));
    if setup.connected() {
        return Outcome::stays(setup, Some(error));
    }
    Outcome::closes(setup, Some(error))
}

/// Takes the first frame of a connection.
fn take_first(
    alloc: Global,
    state: AwaitOrder,
    sequence: u32,
    frame: &[u8],
) -> Result<Outcome, NoMemory>
    requires { 8 ≤ length frame.now }
    ensures outcome { IfOk result (λ outcome. as_outcome outcome ≡ first_outcome state sequence frame.now) }
    ensures said { IfOk result (λ outcome. CanBeSaid (said_in (as_answer outcome.answer))) }
{
    let offending = named(sequence, frame);
    let setup = AnySetup::AwaitOrder(state);
    if !(frame[0] == 0 && frame[1] == 1) {
        return Ok(refuse(setup, ErrorClass::BadState, offending, Octets::new(alloc)));
    }
    if read_card32(Endian::Lsb, &frame[4..]) != 0 {
        return Ok(refuse(setup, ErrorClass::BadLength, offending, Octets::new(alloc)));
    }
    if frame[2] > 1 {
        let values = wrong_byte_values(alloc, 2, frame)?;
        return Ok(refuse(setup, ErrorClass::BadValue, offending, values));
    }
    let order = if frame[2] == 1 {
        Endian::Msb
    } else {
        Endian::Lsb
    };
    take_message(alloc, setup, sequence, IceMessage::ByteOrder(order))
}

/// Takes what a frame of major opcode 0 spells.
fn take_ice(
    alloc: Global,
    setup: AnySetup,
    sequence: u32,
    endian: Endian,
    frame: &[u8],
) -> Result<Outcome, NoMemory>
    requires whole { IsFrame endian frame.now }
    requires within { length frame.now ≤ byte_limit }
    requires opcode { slice_index frame.now 0 ≡ 0 }
    ensures outcome { IfOk result (λ outcome. as_outcome outcome
        ≡ read_outcome setup sequence frame.now (decode_at endian frame.now)) }
    ensures said { IfOk result (λ outcome. CanBeSaid (said_in (as_answer outcome.answer))) }
{
    let offending = named(sequence, frame);
    match decode_ice(alloc, endian, frame) {
        Ok(message) => take_message(alloc, setup, sequence, message),
        Err(DecodeRefusal::BadMinor) => {
            Ok(refuse(setup, ErrorClass::BadMinor, offending, Octets::new(alloc)))
        }
        Err(DecodeRefusal::BadLength) => {
            Ok(refuse(setup, ErrorClass::BadLength, offending, Octets::new(alloc)))
        }
        Err(DecodeRefusal::BadValue { at, .. }) => {
            let values = wrong_byte_values(alloc, at, frame)?;
            Ok(refuse(setup, ErrorClass::BadValue, offending, values))
        }
        Err(DecodeRefusal::NoMemory) => Err(NoMemory),
    }
}

/// Whether the client's messages of XSMP have this major opcode.
fn is_opcode(own: Option<u8>, opcode: u8) -> bool
    ensures { result ≡ is_opcode_of own opcode }
{
    match own {
        Some(own) => own == opcode,
        None => false,
    }
}

/// Refuses a message of XSMP, with values that fill units of 8 bytes.
fn refuse_xsmp(setup: AnySetup, class: ErrorClass, offending: Offending, values: Octets) -> Outcome
    requires units { length values % 8 ≡ 0 }
    requires few { length values ≤ 65528 }
    ensures outcome { as_outcome result ≡ refused_xsmp setup class offending values }
    ensures said { CanBeSaid (said_in (as_answer result.answer)) }
{
    let error = error_of(Severity::CanContinue, class, offending, values);
    Outcome::stays(setup, Some(Message::Xsmp(XsmpMessage::Error(error))))
}

/// Takes what a frame of the client's opcode spells.
fn take_xsmp<'a>(
    alloc: Global,
    setup: AnySetup,
    sequence: u32,
    endian: Endian,
    frame: &'a [u8],
) -> Result<Taken<'a>, NoMemory>
    requires whole { IsFrame endian frame.now }
    requires within { length frame.now ≤ byte_limit }
    ensures outcome { IfOk result (λ taken. as_taken setup sequence taken
        ≡ xsmp_outcome setup sequence frame.now (xsmp_at endian frame.now)) }
    ensures said { IfOk result (λ taken.
        CanBeSaid (said_in (as_taken setup sequence taken).answer)) }
    ensures spelled { IfOk result (λ taken. IsSpelled (as_taken setup sequence taken).answer) }
{
    let offending = named(sequence, frame);
    match view_xsmp(endian, frame) {
        Ok(view) => Ok(Taken::Speaks(view)),
        Err(ViewRefusal::BadMinor) => {
            let none = Octets::new(alloc);
            let outcome = refuse_xsmp(setup, ErrorClass::BadMinor, offending, none);
            Ok(Taken::Brings(outcome))
        }
        Err(ViewRefusal::BadLength) => {
            let none = Octets::new(alloc);
            let outcome = refuse_xsmp(setup, ErrorClass::BadLength, offending, none);
            Ok(Taken::Brings(outcome))
        }
        Err(ViewRefusal::BadValue { at, .. }) => {
            let values = wrong_byte_values(alloc, at, frame)?;
            let outcome = refuse_xsmp(setup, ErrorClass::BadValue, offending, values);
            Ok(Taken::Brings(outcome))
        }
    }
}

/// Takes a frame behind the first.
fn take_later<'a>(
    alloc: Global,
    setup: AnySetup,
    sequence: u32,
    endian: Endian,
    frame: &'a [u8],
) -> Result<Taken<'a>, NoMemory>
    requires whole { IsFrame endian frame.now }
    requires within { length frame.now ≤ byte_limit }
    ensures outcome { IfOk result (λ taken. as_taken setup sequence taken
        ≡ later_outcome setup sequence endian frame.now) }
    ensures said { IfOk result (λ taken.
        CanBeSaid (said_in (as_taken setup sequence taken).answer)) }
    ensures spelled { IfOk result (λ taken. IsSpelled (as_taken setup sequence taken).answer) }
{
    let (opcode, minor) = (frame[0], frame[1]);
    if minor == 0 {
        return Ok(Taken::Brings(Outcome::stays(setup, None)));
    }
    if opcode == 0 {
        let outcome = take_ice(alloc, setup, sequence, endian, frame)?;
        return Ok(Taken::Brings(outcome));
    }
    if is_opcode(setup.client_opcode(), opcode) {
        return take_xsmp(alloc, setup, sequence, endian, frame);
    }
    let values = opcode_values(alloc, opcode)?;
    let outcome = refuse(setup, ErrorClass::BadMajor, named(sequence, frame), values);
    Ok(Taken::Brings(outcome))
}

/// Takes a whole frame.
pub fn take_frame<'a>(
    alloc: Global,
    setup: AnySetup,
    sequence: u32,
    frame: Frame<'a>,
) -> Result<Taken<'a>, NoMemory>
    requires header { 8 ≤ length frame.bytes.now }
    requires whole { is_ordered setup ≡ true → IsFrame frame.endian frame.bytes.now }
    requires within { length frame.bytes.now ≤ byte_limit }
    ensures outcome { IfOk result (λ taken. as_taken setup sequence taken
        ≡ frame_outcome setup sequence
        (record { endian = frame.entry.endian; bytes = frame.entry.bytes.now })) }
    ensures said { IfOk result (λ taken.
        CanBeSaid (said_in (as_taken setup sequence taken).answer)) }
    ensures spelled { IfOk result (λ taken. IsSpelled (as_taken setup sequence taken).answer) }
{
    match setup {
        AnySetup::AwaitOrder(state) => {
            let outcome = take_first(alloc, state, sequence, frame.bytes)?;
            Ok(Taken::Brings(outcome))
        }
        setup => take_later(alloc, setup, sequence, frame.endian, frame.bytes),
    }
}

/// An Error of XSMP, or else of ICE.
fn error_about(of_xsmp: bool, error: ErrorBody) -> Message
    ensures { result ≡ error_about_of of_xsmp error }
{
    if of_xsmp {
        return Message::Xsmp(XsmpMessage::Error(error));
    }
    Message::Ice(IceMessage::Error(error))
}

/// The answer to the header of an oversize frame.
fn answer_oversize(alloc: Global, setup: &AnySetup, sequence: u32, header: &[u8; 8]) -> Answer
    ensures answer { as_answer result ≡ oversize_answer setup.now sequence header.now }
    ensures said { CanBeSaid (said_in (as_answer result)) }
{
    let offending = named(sequence, header);
    if offending.minor == 0 {
        return Answer::Closes(None);
    }
    let none = Octets::new(alloc);
    let error = error_of(
        Severity::FatalToConnection,
        ErrorClass::BadLength,
        offending,
        none,
    );
    let opcode = header[0];
    Answer::Closes(Some(error_about(is_opcode(setup.client_opcode(), opcode), error)))
}

/// The answer to the header of an oversize frame, which a splitter holds.
pub fn answer_header(alloc: Global, setup: &AnySetup, sequence: u32, splitter: &Splitter) -> Answer
    requires { 8 ≤ length splitter.now.held }
    ensures answer { as_answer result ≡ oversize_answer setup.now sequence (take 8 splitter.now.held) }
    ensures said { CanBeSaid (said_in (as_answer result)) }
{
    match splitter.header() {
        Some(header) => answer_oversize(alloc, setup, sequence, &header),
        None => Answer::Closes(None),
    }
}
