ghost use Rattle.std.specs.Prelude.{◌≡◌, ◌++◌, IfOk, OnOk};
ghost use Rattle.std.specs.List.{concat};
ghost use Rattle.late_answers.specs.Leavers.{is_over as is_over_at, leaver_ended, leaver_waits, leaver_passed};
ghost use Rattle.client_quirks.specs.Stood.{line_bytes, restart_in as restart_by, known_of, told_of, asked_of, answered_to, stood_in, stood_all, StandsIn};

use crate::pieces::{PieceList, add_bytes};
use crate::restarting::restart_in;
use crate::side::Side;
use crate::tongue::{Tongue, xsmp_in};
use frame_speech::Speech;
use ice_framing::WholeFrame;
use ice_values::PropertyList;
use late_answers::Leaver;
use owned_lists::{Command, CommandList, NoMemory, Octets};
use std::alloc::Global;
use xsmp_messages::XsmpMessage;

/// Speaks in the place of a client that has left.
#[derive(Debug, Drop)]
pub struct StandIn {
    alloc: Global,
    /// What the manager sends.
    sent: Side,
    /// How the client spoke.
    client: Tongue,
    leaver: Leaver,
}

/// What the manager hears in the place of a client that has left, and what is started.
#[derive(Debug, Drop)]
pub struct Stood {
    pub pieces: PieceList,
    pub started: CommandList,
}

/// Its properties were asked for, and this starts it again, if anything does.
fn know(
    leaver: Leaver,
    command: Option<Command>,
    started: &mut CommandList,
) -> Result<Leaver, NoMemory>
    ensures leaver { IfOk result (λ next. next ≡ (known_of command leaver).leaver) }
    ensures started { OnOk result (started.new ≡ started.old ++ (known_of command leaver).started) }
{
    match command {
        Some(command) => {
            started.push(command)?;
            Ok(leaver.known(true))
        }
        None => Ok(leaver.known(false)),
    }
}

/// Its properties were asked for, and these are they.
fn restart(
    alloc: Global,
    leaver: Leaver,
    properties: &PropertyList,
    started: &mut CommandList,
) -> Result<Leaver, NoMemory>
    ensures leaver { IfOk result (λ next. next
        ≡ (known_of (restart_by properties.now) leaver).leaver) }
    ensures started { OnOk result (started.new
        ≡ started.old ++ (known_of (restart_by properties.now) leaver).started) }
{
    let command = restart_in(alloc, properties)?;
    know(leaver, command, started)
}

/// Hears a message of the manager's that isn't asked for: adds what it hears.
fn hear(
    client: Tongue,
    leaver: Leaver,
    message: &XsmpMessage,
    handed: &mut Octets,
) -> Result<Leaver, NoMemory>
    ensures leaver { IfOk result (λ next. next ≡ (told_of client message.now leaver).leaver) }
    ensures handed { OnOk result (handed.new
        ≡ handed.old ++ (told_of client message.now leaver).handed) }
{
    let parting = leaver.told(message);
    client.put_line(parting.line, handed)?;
    Ok(parting.leaver)
}

/// Hears a message of the manager's whose properties were asked for: adds what it hears, and what is
/// started.
fn hear_asked(
    alloc: Global,
    client: Tongue,
    leaver: Leaver,
    message: &XsmpMessage,
    handed: &mut Octets,
    started: &mut CommandList,
) -> Result<Leaver, NoMemory>
    ensures leaver { IfOk result (λ next. next ≡ (asked_of client message.now leaver).leaver) }
    ensures handed { OnOk result (handed.new
        ≡ handed.old ++ (asked_of client message.now leaver).handed) }
    ensures started { OnOk result (started.new
        ≡ started.old ++ (asked_of client message.now leaver).started) }
{
    match message {
        XsmpMessage::GetPropertiesReply { properties } => {
            restart(alloc, leaver, properties, started)
        }
        _ => hear(client, leaver, message, handed),
    }
}

/// Hears a message of the manager's: adds what it hears, and what is started.
fn answer(
    alloc: Global,
    client: Tongue,
    leaver: Leaver,
    message: &XsmpMessage,
    handed: &mut Octets,
    started: &mut CommandList,
) -> Result<Leaver, NoMemory>
    ensures leaver { IfOk result (λ next. next
        ≡ (answered_to client message.now leaver).leaver) }
    ensures handed { OnOk result (handed.new
        ≡ handed.old ++ (answered_to client message.now leaver).handed) }
    ensures started { OnOk result (started.new
        ≡ started.old ++ (answered_to client message.now leaver).started) }
{
    if leaver.is_asking() {
        hear_asked(alloc, client, leaver, message, handed, started)
    } else {
        hear(client, leaver, message, handed)
    }
}

/// Hears a frame of the manager's.
fn answer_frame(
    alloc: Global,
    client: Tongue,
    speech: Speech,
    leaver: Leaver,
    frame: &WholeFrame,
    handed: &mut Octets,
    started: &mut CommandList,
) -> Result<Leaver, NoMemory>
    ensures leaver { IfOk result (λ next. next ≡ (stood_in client speech frame.now leaver).leaver) }
    ensures handed { OnOk result (handed.new
        ≡ handed.old ++ (stood_in client speech frame.now leaver).handed) }
    ensures started { OnOk result (started.new
        ≡ started.old ++ (stood_in client speech frame.now leaver).started) }
{
    match xsmp_in(alloc, speech, frame)? {
        Some(message) => answer(alloc, client, leaver, &message, handed, started),
        None => Ok(leaver),
    }
}

/// Hears frames of the manager's, one after another.
fn answer_frames(
    alloc: Global,
    client: Tongue,
    speech: Speech,
    from: Leaver,
    frames: &[WholeFrame],
    handed: &mut Octets,
    started: &mut CommandList,
) -> Result<Leaver, NoMemory>
    ensures leaver { IfOk result (λ next. next ≡ (stood_all client speech from frames.now).leaver) }
    ensures handed { OnOk result (handed.new
        ≡ handed.old ++ (stood_all client speech from frames.now).handed) }
    ensures started { OnOk result (started.new
        ≡ started.old ++ (stood_all client speech from frames.now).started) }
{
    let mut leaver = from;
    for frame in frames {
        leaver = answer_frame(alloc, client, speech, leaver, frame, handed, started)?;
    }
    Ok(leaver)
}

impl StandIn {
    /// In the place of a client that spoke so, and to whom this was sent.
    pub(crate) fn new(alloc: Global, sent: Side, client: Tongue, leaver: Leaver) -> StandIn
        ensures sent { result.sent ≡ sent }
        ensures client { result.client ≡ client }
        ensures leaver { result.leaver ≡ leaver }
    {
        StandIn {
            alloc,
            sent,
            client,
            leaver,
        }
    }

    /// Whether the end of the client is handed on.
    pub fn is_over(&self) -> bool
        ensures { result ≡ is_over_at self.now.leaver.stay }
    {
        self.leaver.stay.is_over()
    }

    /// Whether something is done as time passes.
    pub fn waits(&self) -> bool
        ensures { result ≡ leaver_waits self.now.leaver }
    {
        self.leaver.waits()
    }

    /// Hears that the client's stream has ended.
    pub fn end(&mut self)
        ensures leaver { self.new.leaver ≡ leaver_ended self.old.leaver }
        ensures sent { self.new.sent ≡ self.old.sent }
        ensures client { self.new.client ≡ self.old.client }
    {
        self.leaver = self.leaver.ended();
    }

    /// Hears what the manager sends.
    pub fn tell(&mut self, bytes: &[u8]) -> Result<Stood, NoMemory>
        ensures { IfOk result (λ stood. StandsIn self.old bytes.now
            stood.pieces stood.started self.new) }
    {
        let frames = self.sent.take(self.alloc, bytes)?;
        let mut handed = Octets::new(self.alloc);
        let mut started = CommandList::new(self.alloc);
        self.leaver = answer_frames(
            self.alloc,
            self.client,
            self.sent.speech,
            self.leaver,
            frames.as_slice(),
            &mut handed,
            &mut started,
        )?;
        let mut pieces = PieceList::new(self.alloc);
        add_bytes(self.alloc, handed.as_slice(), &mut pieces)?;
        Ok(Stood { pieces, started })
    }

    /// What the manager hears as so many milliseconds pass.
    pub fn pass(&mut self, milliseconds: u64) -> Result<PieceList, NoMemory>
        ensures handed { IfOk result (λ list. concat list
            ≡ line_bytes self.old.client (leaver_passed milliseconds self.old.leaver).line) }
        ensures leaver { OnOk result
            (self.new.leaver ≡ (leaver_passed milliseconds self.old.leaver).leaver) }
        ensures sent { self.new.sent ≡ self.old.sent }
        ensures client { self.new.client ≡ self.old.client }
    {
        let parting = self.leaver.passed(milliseconds);
        let mut handed = Octets::new(self.alloc);
        self.client.put_line(parting.line, &mut handed)?;
        let mut pieces = PieceList::new(self.alloc);
        add_bytes(self.alloc, handed.as_slice(), &mut pieces)?;
        self.leaver = parting.leaver;
        Ok(pieces)
    }
}
