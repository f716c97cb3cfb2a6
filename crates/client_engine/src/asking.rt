ghost use Rattle.std.specs.Prelude.{◌≡◌, IfOk};
ghost use Rattle.xsmp_properties.specs.Tables.{IsTableFull};
ghost use Rattle.client_engine.specs.Answering.{AreFew, closes, is_closing as is_closing_spec, sets, stage_again as stage_again_spec};
ghost use Rattle.client_engine.specs.Messages.{AreShort};
ghost use Rattle.protocol_messages.specs.Messages.{IsTooLong};

use crate::engine::Core;
use crate::messages::{MessageList, one};
use crate::place::Place;
use client_machine::{AskRefusal, ClientPhase, Request, SaveAnswer, SaveAsk, Stage};
use ice_messages::IceMessage;
use ice_values::{Array8List, Endian, PropertyList};
use owned_lists::NoMemory;
use protocol_messages::Message;
use std::alloc::Global;
use xsmp_messages::XsmpMessage;

/// The message with which a client begins, before it receives anything (ICE, chapter 5, ByteOrder).
pub fn greeting() -> Message
    ensures message { result ≡ Message.Ice (IceMessage.ByteOrder Endian.Lsb) }
    ensures short { ¬ (IsTooLong result) }
{
    Message::Ice(IceMessage::ByteOrder(Endian::Lsb))
}

/// The stage at which a client is asked again that has talked to the user.
pub fn stage_again(stage: Stage) -> Option<Stage>
    ensures { result ≡ stage_again_spec stage }
{
    match stage {
        Stage::Talking => Some(Stage::First),
        Stage::TalkingTwo => Some(Stage::Second),
        Stage::First => None,
        Stage::Second => None,
    }
}

/// What a client says that was told to die (XSMP, chapter 7: ConnectionClosed), once: the cue is
/// `Die`. Of its reasons, which the manager may show, at most 16 of at most 1,024 bytes can be spelled.
pub fn closing(reasons: Array8List) -> Message
    ensures message { result ≡ closes reasons }
    ensures short { AreFew reasons → ¬ (IsTooLong result) }
{
    Message::Xsmp(XsmpMessage::ConnectionClosed { reasons })
}

/// Whether a client says by this request that it closes.
fn is_closing(request: &Request) -> bool
    ensures { result ≡ is_closing_spec request.now }
{
    matches!(request, Request::Close(_))
}

/// What a client sets, where there is something.
fn set(alloc: Global, properties: PropertyList) -> Result<MessageList, NoMemory>
    requires { ¬ (IsTableFull properties) }
    ensures said { IfOk result (λ said. said ≡ sets properties) }
    ensures short { IfOk result AreShort }
{
    if properties.as_slice().is_empty() {
        return Ok(MessageList::new(alloc));
    }
    one(
        alloc,
        Message::Xsmp(XsmpMessage::SetProperties { properties }),
    )
}

impl Core {
    ghost use Rattle.std.specs.Prelude.{◌≡◌, None, Some, IfOk, OnOk, MatchOption};
    ghost use Rattle.client_machine.specs.Asking.{after_asked};
    ghost use Rattle.client_machine.specs.Phases.{is_owing};
    ghost use Rattle.client_machine.specs.Saves.{IsLawful, at_stage};
    ghost use Rattle.client_engine.specs.Answering.{answered_at, answer_messages, after_answer, after_owed, after_request, changed, owed_messages};
    ghost use Rattle.client_engine.specs.Messages.{AreShort};
    ghost use Rattle.protocol_messages.specs.Messages.{IsTooLong};
    ghost use Rattle.client_engine.specs.Places.{id_at, phase_at};
    ghost use Rattle.client_engine.specs.Speaking.{MayAnswer};

    /// The phase of the client: `Registering` until it has joined, and `Dead` once it takes nothing
    /// more.
    pub fn phase(&self) -> ClientPhase
        ensures { result ≡ phase_at self.now.talk.place }
    {
        self.talk.place.phase()
    }

    /// The ID that the manager gave it; none before that, nor once it takes nothing more.
    pub fn id(&self) -> Option<&[u8]>
        ensures { MatchOption result (id_at self.now.talk.place ≡ None) (λ id.
            id_at self.now.talk.place ≡ Some id.now) }
    {
        match &self.talk.place {
            Place::Opening(_, _) => None,
            Place::Speaking(_, client) => client.id(),
            Place::Stopped => None,
        }
    }

    /// Says a request, and leaves the client in its phase after that.
    fn say(&mut self, request: Request) -> Result<Message, AskRefusal>
        ensures answer { result ≡ answered_at request self.old.talk.place }
        ensures talk { self.new.talk ≡ changed (after_asked request) self.old.talk }
        ensures splitter { self.new.splitter ≡ self.old.splitter }
    {
        match &mut self.talk.place {
            Place::Opening(_, _) => Err(AskRefusal::WrongPhase {
                phase: ClientPhase::Registering,
            }),
            Place::Speaking(_, client) => match client.ask(request) {
                Ok(message) => Ok(Message::Xsmp(message)),
                Err(refusal) => Err(refusal),
            },
            Place::Stopped => Err(AskRefusal::WrongPhase {
                phase: ClientPhase::Dead,
            }),
        }
    }

    /// Says a request of the client's (XSMP, chapter 7), at any time between two parts. Refused where
    /// it has no place in the client's phase; nothing changes then. A client that says that it closes
    /// takes nothing more.
    pub fn ask(&mut self, request: Request) -> Result<Message, AskRefusal>
        ensures answer { result ≡ answered_at request self.old.talk.place }
        ensures talk { self.new.talk ≡ after_request request self.old.talk }
        ensures splitter { self.new.splitter ≡ self.old.splitter }
    {
        let closes = is_closing(&request);
        let message = match self.say(request) {
            Ok(message) => message,
            Err(refusal) => return Err(refusal),
        };
        if closes {
            self.talk.place = Place::Stopped;
        }
        Ok(message)
    }

    /// Says how the client goes on in a save that its keeper was asked for: what it sets, and its step.
    /// Once it has talked to the user it may be asked at another stage (`stage_again`).
    pub fn answer(
        &mut self,
        alloc: Global,
        ask: SaveAsk,
        answer: SaveAnswer,
    ) -> Result<MessageList, NoMemory>
        requires place { MayAnswer ask self.old.talk.place }
        requires lawful { IsLawful ask answer }
        ensures said { IfOk result (λ said. said ≡ answer_messages answer) }
        ensures short { IfOk result AreShort }
        ensures talk { OnOk result (self.new.talk ≡ changed (after_answer answer) self.old.talk) }
        ensures again { OnOk result ((stage : Stage) → stage_again_spec ask.stage ≡ Some stage →
            MayAnswer (at_stage stage ask) self.new.talk.place) }
        ensures splitter { self.new.splitter ≡ self.old.splitter }
    {
        let SaveAnswer {
            set: properties,
            step,
        } = answer;
        let mut said = set(alloc, properties)?;
        match self.say(step.request()) {
            Ok(message) => said.push(message)?,
            Err(_) => unreachable!(),
        }
        Ok(said)
    }

    /// Answers a save that was cancelled, where the client owes that.
    pub fn owed(&mut self, alloc: Global) -> Result<MessageList, NoMemory>
        ensures said { IfOk result (λ said.
            said ≡ owed_messages (is_owing (phase_at self.old.talk.place))) }
        ensures short { IfOk result AreShort }
        ensures talk { OnOk result
            (self.new.talk ≡ changed (after_owed (is_owing (phase_at self.old.talk.place)))
            self.old.talk) }
        ensures splitter { self.new.splitter ≡ self.old.splitter }
    {
        if self.phase() != ClientPhase::Owing {
            return Ok(MessageList::new(alloc));
        }
        match self.say(Request::Done(false)) {
            Ok(message) => one(alloc, message),
            Err(_) => unreachable!(),
        }
    }
}
