ghost use Rattle.std.specs.Prelude.{◌≡◌};

use ice_values::Text16;

/// The events of a window itself: it is mapped, unmapped, moved to another parent or destroyed
/// (X protocol, appendix B: SETofEVENT).
pub const STRUCTURE_NOTIFY: u32 = 0x2_0000;

/// The same events of a window's children, and that there is a new one.
pub const SUBSTRUCTURE_NOTIFY: u32 = 0x8_0000;

/// What a window manager alone asks of the root: that children are shown by it.
pub const SUBSTRUCTURE_REDIRECT: u32 = 0x10_0000;

/// The changes of a window's properties.
pub const PROPERTY_CHANGE: u32 = 0x40_0000;

/// How a program begins to speak with a display (X protocol, chapter 8: Connection Setup): least
/// significant byte first, protocol 11.0.
#[derive(Debug, Drop)]
pub struct Setup {
    /// The data of `MIT-MAGIC-COOKIE-1`; without it the display is shown no authorization.
    pub cookie: Option<Text16>,
}

/// A ClientMessage of format 32 (X protocol, chapter 11), of whose five numbers the last two are 0 in
/// all that is sent.
#[derive(Clone, Copy, Debug, PartialEq, Eq)]
pub struct ClientMessage {
    /// The window that it is about.
    pub window: u32,
    /// The atom that says what the numbers mean.
    pub kind: u32,
    pub first: u32,
    pub second: u32,
    pub third: u32,
}

impl ClientMessage {
    /// Asks a window to close: WM_DELETE_WINDOW under WM_PROTOCOLS, at no stated time (ICCCM, section
    /// 4.2.8).
    pub fn close(window: u32, protocols: u32, delete_window: u32) -> ClientMessage
        ensures { result ≡ record {
          window = window;
          kind = protocols;
          first = delete_window;
          second = 0;
          third = 0;
        } }
    {
        ClientMessage {
            window,
            kind: protocols,
            first: delete_window,
            second: 0,
            third: 0,
        }
    }

    /// Asks whether a window's program still listens: _NET_WM_PING under WM_PROTOCOLS. The answer is the
    /// same message, sent to the root (EWMH, Window Manager Protocols).
    pub fn ping(window: u32, protocols: u32, ping: u32, stamp: u32) -> ClientMessage
        ensures { result ≡ record {
          window = window;
          kind = protocols;
          first = ping;
          second = stamp;
          third = window;
        } }
    {
        ClientMessage {
            window,
            kind: protocols,
            first: ping,
            second: stamp,
            third: window,
        }
    }

    /// Asks the window manager to show a window: _NET_ACTIVE_WINDOW from a program that serves its user
    /// directly, as a pager does (EWMH, Root Window Properties). It is sent to the root.
    pub fn activate(window: u32, active_window: u32) -> ClientMessage
        ensures { result ≡ record {
          window = window;
          kind = active_window;
          first = 2;
          second = 0;
          third = 0;
        } }
    {
        ClientMessage {
            window,
            kind: active_window,
            first: 2,
            second: 0,
            third: 0,
        }
    }
}

/// What a display is asked (X protocol, chapter 9; X-Resource 1.2 for the last two).
#[derive(Debug, Drop)]
pub enum Request {
    /// The atom of a name; the display makes one where there is none.
    InternAtom {
        name: Text16,
    },
    /// A property from its start, of whatever type.
    GetProperty {
        window: u32,
        property: u32,
        /// How much of it at most, in units of 4 bytes.
        limit: u32,
    },
    /// From here on these events of the window come, and no others.
    ChangeWindowAttributes {
        window: u32,
        events: u32,
    },
    GetWindowAttributes {
        window: u32,
    },
    /// The window's parent and children.
    QueryTree {
        window: u32,
    },
    /// Hands a message to those that have asked for one of these events of the window; with none, to
    /// whoever made it.
    SendEvent {
        window: u32,
        events: u32,
        message: ClientMessage,
    },
    /// A mark: once it is answered, all that was asked before it is.
    GetInputFocus,
    /// The opcode of an extension.
    QueryExtension {
        name: Text16,
    },
    /// That X-Resource 1.2 is meant, under the opcode that the display has for it.
    QueryResourceVersion {
        opcode: u8,
    },
    /// The process of this machine to which a window belongs.
    QueryClientIds {
        opcode: u8,
        window: u32,
    },
}
