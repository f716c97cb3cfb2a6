ghost use Rattle.std.specs.Prelude.{◌≡◌, IfOk, MatchResult, Some};
ghost use Rattle.ice_setup.specs.Opener.{connection_setup as connection_setup_spec, stops as stops_spec, blamed as blamed_spec, other_cell, demand_cell, connection_cell, protocol_cell, opened, CanBeSaid};

use crate::answers::bare_error;
use crate::errors::Offending;
use crate::opening::{connection_setup, protocol_setup, shows_cookie};
use crate::others::named;
use ice_cookie::Cookie;
use ice_messages::IceMessage;
use ice_values::{ErrorClass, Severity};
use owned_lists::NoMemory;
use std::alloc::Global;

/// The manager's ByteOrder is awaited. The client has sent its own.
#[derive(Clone, Copy, Debug)]
pub struct OpenOrder {
    pub(crate) cookie: Cookie,
}

/// The answer to the client's ConnectionSetup is awaited.
#[derive(Clone, Copy, Debug)]
pub struct OpenSetup {
    pub(crate) cookie: Cookie,
}

/// The client is connected, and the answer to its ProtocolSetup is awaited.
#[derive(Clone, Copy, Debug)]
pub struct OpenProtocol {
    pub(crate) cookie: Cookie,
}

/// XSMP has begun.
#[derive(Clone, Copy, Debug)]
pub struct Joined {
    /// The major opcode under which the manager sends the messages of XSMP.
    pub(crate) opcode: u8,
}

/// How far the set-up of a connection has come (ICE, chapter 6, of the party that opens).
#[derive(Clone, Copy, Debug)]
pub enum AnyOpener {
    OpenOrder(OpenOrder),
    OpenSetup(OpenSetup),
    OpenProtocol(OpenProtocol),
    Joined(Joined),
}

/// What a message brought.
#[derive(Debug, Drop)]
pub enum OpenMoved {
    /// The client goes on in this state, and the answer, if any, is sent.
    Goes(AnyOpener, Option<IceMessage>),
    /// The answer, if any, is sent, and then the client is at its end.
    Ends(Option<IceMessage>),
}

/// A message that has no place.
fn stops(alloc: Global, offending: Offending) -> OpenMoved
    ensures answer { result ≡ stops_spec offending }
    ensures said { CanBeSaid result }
{
    let class = ErrorClass::BadState;
    OpenMoved::Ends(Some(bare_error(alloc, Severity::FatalToConnection, class, offending)))
}

/// The manager refuses something.
fn blamed(state: AnyOpener, severity: Severity) -> OpenMoved
    ensures answer { result ≡ blamed_spec state severity }
    ensures said { CanBeSaid result }
{
    match severity {
        Severity::CanContinue => OpenMoved::Goes(state, None),
        _ => OpenMoved::Ends(None),
    }
}

/// What every state behind the first does about a message that it has no cell for.
fn take_other(
    alloc: Global,
    state: AnyOpener,
    message: &IceMessage,
    offending: Offending,
) -> OpenMoved
    ensures answer { result ≡ other_cell state message.now offending }
    ensures said { CanBeSaid result }
{
    match message {
        IceMessage::Ping => OpenMoved::Goes(state, Some(IceMessage::PingReply)),
        IceMessage::Error(error) => blamed(state, error.severity),
        _ => stops(alloc, offending),
    }
}

/// The cookie is asked for, under this name of those that the client offered.
fn take_demand(
    alloc: Global,
    state: AnyOpener,
    cookie: Cookie,
    name: u8,
    offending: Offending,
) -> Result<OpenMoved, NoMemory>
    ensures answer { IfOk result (λ m. m ≡ demand_cell state cookie name offending) }
    ensures said { IfOk result CanBeSaid }
{
    if name != 0 {
        return Ok(stops(alloc, offending));
    }
    Ok(OpenMoved::Goes(state, Some(shows_cookie(alloc, cookie)?)))
}

impl OpenOrder {
    /// The client's state once it has sent ByteOrder; this takes no memory.
    pub fn new(cookie: Cookie) -> OpenOrder
        ensures { result ≡ record { cookie = cookie } }
    {
        OpenOrder { cookie }
    }

    /// The manager's ByteOrder came.
    fn take_order(self, alloc: Global) -> Result<OpenMoved, NoMemory>
        ensures answer { IfOk result (λ m.
            m ≡ OpenMoved.Goes (AnyOpener.OpenSetup (record { cookie = self.cookie }))
            (Some connection_setup_spec)) }
        ensures said { IfOk result CanBeSaid }
    {
        let setup = connection_setup(alloc)?;
        let cookie = self.cookie;
        Ok(OpenMoved::Goes(AnyOpener::OpenSetup(OpenSetup { cookie }), Some(setup)))
    }

    /// Takes the message with this number of its sender. The manager's ByteOrder is answered by a
    /// ConnectionSetup; but for Errors no other message has its place here.
    pub fn take(
        self,
        alloc: Global,
        message: IceMessage,
        sequence: u32,
    ) -> Result<OpenMoved, (OpenOrder, NoMemory)>
        ensures exact { MatchResult result (λ m. m
            ≡ opened (AnyOpener.OpenOrder self) message sequence) (λ e. e.0 ≡ self) }
        ensures said { IfOk result CanBeSaid }
    {
        let offending = named(&message, sequence);
        match &message {
            IceMessage::ByteOrder(_) => match self.take_order(alloc) {
                Ok(moved) => Ok(moved),
                Err(error) => Err((self, error)),
            },
            IceMessage::Error(error) => Ok(blamed(AnyOpener::OpenOrder(self), error.severity)),
            _ => Ok(stops(alloc, offending)),
        }
    }
}

impl OpenSetup {
    /// The client is connected, with this version of those that it offered.
    fn take_reply(
        self,
        alloc: Global,
        version: u8,
        offending: Offending,
    ) -> Result<OpenMoved, NoMemory>
        ensures answer { IfOk result (λ m. m ≡ connection_cell self version offending) }
        ensures said { IfOk result CanBeSaid }
    {
        if version != 0 {
            return Ok(stops(alloc, offending));
        }
        let setup = protocol_setup(alloc)?;
        let cookie = self.cookie;
        Ok(OpenMoved::Goes(
            AnyOpener::OpenProtocol(OpenProtocol { cookie }),
            Some(setup),
        ))
    }

    /// Takes the message with this number of its sender. The cookie is shown as often as it is asked
    /// for, and a ConnectionReply is answered by a ProtocolSetup.
    pub fn take(
        self,
        alloc: Global,
        message: IceMessage,
        sequence: u32,
    ) -> Result<OpenMoved, (OpenSetup, NoMemory)>
        ensures exact { MatchResult result (λ m. m
            ≡ opened (AnyOpener.OpenSetup self) message sequence) (λ e. e.0 ≡ self) }
        ensures said { IfOk result CanBeSaid }
    {
        let offending = named(&message, sequence);
        let state = AnyOpener::OpenSetup(self);
        match &message {
            IceMessage::AuthenticationRequired { index, .. } => {
                match take_demand(alloc, state, self.cookie, *index, offending) {
                    Ok(moved) => Ok(moved),
                    Err(error) => Err((self, error)),
                }
            }
            IceMessage::ConnectionReply { index, .. } => {
                match self.take_reply(alloc, *index, offending) {
                    Ok(moved) => Ok(moved),
                    Err(error) => Err((self, error)),
                }
            }
            _ => Ok(take_other(alloc, state, &message, offending)),
        }
    }
}

impl OpenProtocol {
    /// XSMP begins, with this version of those that the client offered.
    fn take_reply(self, alloc: Global, version: u8, opcode: u8, offending: Offending) -> OpenMoved
        ensures answer { result ≡ protocol_cell version opcode offending }
        ensures said { CanBeSaid result }
    {
        if version == 0 {
            return OpenMoved::Goes(AnyOpener::Joined(Joined { opcode }), None);
        }
        stops(alloc, offending)
    }

    /// Takes the message with this number of its sender. The cookie is shown as often as it is asked
    /// for, and by a ProtocolReply the client has joined.
    pub fn take(
        self,
        alloc: Global,
        message: IceMessage,
        sequence: u32,
    ) -> Result<OpenMoved, (OpenProtocol, NoMemory)>
        ensures exact { MatchResult result (λ m. m
            ≡ opened (AnyOpener.OpenProtocol self) message sequence) (λ e. e.0 ≡ self) }
        ensures said { IfOk result CanBeSaid }
    {
        let offending = named(&message, sequence);
        let state = AnyOpener::OpenProtocol(self);
        match &message {
            IceMessage::AuthenticationRequired { index, .. } => {
                match take_demand(alloc, state, self.cookie, *index, offending) {
                    Ok(moved) => Ok(moved),
                    Err(error) => Err((self, error)),
                }
            }
            IceMessage::ProtocolReply { index, opcode, .. } => {
                Ok(self.take_reply(alloc, *index, *opcode, offending))
            }
            _ => Ok(take_other(alloc, state, &message, offending)),
        }
    }
}

impl Joined {
    /// The major opcode under which the manager sends the messages of XSMP.
    pub fn manager_opcode(&self) -> u8
        ensures { result ≡ self.now.opcode }
    {
        self.opcode
    }

    /// Takes the message with this number of its sender. Ping is answered, and an Error that lets
    /// the client go on is taken without an answer.
    pub fn take(
        self,
        alloc: Global,
        message: IceMessage,
        sequence: u32,
    ) -> Result<OpenMoved, (Joined, NoMemory)>
        ensures exact { MatchResult result (λ m. m
            ≡ opened (AnyOpener.Joined self) message sequence) (λ e. e.0 ≡ self) }
        ensures said { IfOk result CanBeSaid }
    {
        let offending = named(&message, sequence);
        Ok(take_other(alloc, AnyOpener::Joined(self), &message, offending))
    }
}

impl AnyOpener {
    /// Takes the message with this number of its sender, in whichever state the client is.
    pub fn take(
        self,
        alloc: Global,
        message: IceMessage,
        sequence: u32,
    ) -> Result<OpenMoved, (AnyOpener, NoMemory)>
        ensures exact { MatchResult result (λ m. m ≡ opened self message sequence) (λ e.
            e.0 ≡ self) }
        ensures said { IfOk result CanBeSaid }
    {
        match self {
            AnyOpener::OpenOrder(state) => match state.take(alloc, message, sequence) {
                Ok(moved) => Ok(moved),
                Err(kept) => Err((AnyOpener::OpenOrder(kept.0), kept.1)),
            },
            AnyOpener::OpenSetup(state) => match state.take(alloc, message, sequence) {
                Ok(moved) => Ok(moved),
                Err(kept) => Err((AnyOpener::OpenSetup(kept.0), kept.1)),
            },
            AnyOpener::OpenProtocol(state) => match state.take(alloc, message, sequence) {
                Ok(moved) => Ok(moved),
                Err(kept) => Err((AnyOpener::OpenProtocol(kept.0), kept.1)),
            },
            AnyOpener::Joined(state) => match state.take(alloc, message, sequence) {
                Ok(moved) => Ok(moved),
                Err(kept) => Err((AnyOpener::Joined(kept.0), kept.1)),
            },
        }
    }
}
