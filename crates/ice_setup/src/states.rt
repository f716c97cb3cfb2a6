ghost use Rattle.std.specs.Prelude.{◌≡◌};
ghost use Rattle.ice_setup.specs.Setup.{endian_of, opcode_of, connected as connected_spec, unset as unset_spec};

use ice_cookie::Cookie;
use ice_messages::IceMessage;
use ice_values::Endian;

/// The client's ByteOrder is awaited.
#[derive(Clone, Copy, Debug)]
pub struct AwaitOrder {
    pub(crate) cookie: Cookie,
}

/// The client's ConnectionSetup is awaited.
#[derive(Clone, Copy, Debug)]
pub struct AwaitSetup {
    pub(crate) cookie: Cookie,
    pub(crate) endian: Endian,
}

/// The cookie for the connection is awaited.
#[derive(Clone, Copy, Debug)]
pub struct AwaitCookie {
    pub(crate) cookie: Cookie,
    pub(crate) endian: Endian,
    /// The index of the first version 1.0 of ICE that the client offered.
    pub(crate) version: u8,
}

/// The client is connected, and its ProtocolSetup is awaited.
#[derive(Clone, Copy, Debug)]
pub struct AwaitProtocol {
    pub(crate) cookie: Cookie,
    pub(crate) endian: Endian,
}

/// The cookie for XSMP is awaited.
#[derive(Clone, Copy, Debug)]
pub struct AwaitProtocolCookie {
    pub(crate) cookie: Cookie,
    pub(crate) endian: Endian,
    /// The major opcode under which the client will send the messages of XSMP.
    pub(crate) opcode: u8,
    /// The index of the first version 1.0 of XSMP that the client offered.
    pub(crate) version: u8,
}

/// The client speaks XSMP.
#[derive(Clone, Copy, Debug)]
pub struct Ready {
    pub(crate) cookie: Cookie,
    pub(crate) endian: Endian,
    /// The major opcode under which the client sends the messages of XSMP.
    pub(crate) opcode: u8,
}

/// How far the set-up of a connection has come (ICE, chapter 6, of the party that accepts).
#[derive(Clone, Copy, Debug)]
pub enum AnySetup {
    AwaitOrder(AwaitOrder),
    AwaitSetup(AwaitSetup),
    AwaitCookie(AwaitCookie),
    AwaitProtocol(AwaitProtocol),
    AwaitProtocolCookie(AwaitProtocolCookie),
    Ready(Ready),
}

/// What a message brought.
#[derive(Debug, Drop)]
pub enum Moved {
    /// The connection goes on in this state, and the answer, if any, is sent.
    Goes(AnySetup, Option<IceMessage>),
    /// The answer, if any, is sent, and then the connection is shut.
    Ends(Option<IceMessage>),
    /// The client wants to close before it speaks XSMP.
    Close,
    /// The client wants to close while it speaks XSMP: the session decides.
    Ask(AnySetup),
}

impl AwaitOrder {
    /// A new connection; this takes no memory.
    pub fn new(cookie: Cookie) -> AwaitOrder
        ensures { result ≡ record { cookie = cookie } }
    {
        AwaitOrder { cookie }
    }
}

impl Ready {
    /// Ends XSMP on the connection, which stays connected.
    pub fn unset(self) -> AwaitProtocol
        ensures { result ≡ unset_spec self }
    {
        AwaitProtocol {
            cookie: self.cookie,
            endian: self.endian,
        }
    }
}

impl AnySetup {
    /// The order in which the client writes its numbers. None before its ByteOrder.
    pub fn client_endian(&self) -> Option<Endian>
        ensures { result ≡ endian_of self.now }
    {
        match self {
            AnySetup::AwaitOrder(_) => None,
            AnySetup::AwaitSetup(state) => Some(state.endian),
            AnySetup::AwaitCookie(state) => Some(state.endian),
            AnySetup::AwaitProtocol(state) => Some(state.endian),
            AnySetup::AwaitProtocolCookie(state) => Some(state.endian),
            AnySetup::Ready(state) => Some(state.endian),
        }
    }

    /// The major opcode of the client's messages of XSMP. None while it speaks none.
    pub fn client_opcode(&self) -> Option<u8>
        ensures { result ≡ opcode_of self.now }
    {
        match self {
            AnySetup::Ready(state) => Some(state.opcode),
            _ => None,
        }
    }

    /// Whether ConnectionReply was sent.
    pub fn connected(&self) -> bool
        ensures { result ≡ connected_spec self.now }
    {
        match self {
            AnySetup::AwaitOrder(_) => false,
            AnySetup::AwaitSetup(_) => false,
            AnySetup::AwaitCookie(_) => false,
            AnySetup::AwaitProtocol(_) => true,
            AnySetup::AwaitProtocolCookie(_) => true,
            AnySetup::Ready(_) => true,
        }
    }
}
