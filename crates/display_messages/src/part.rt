use crate::ClientMessage;

/// Which Error it is (X protocol, chapter 4).
#[derive(Clone, Copy, Debug, PartialEq, Eq)]
pub enum ErrorKind {
    /// There is no such window; windows go at any time.
    BadWindow,
    /// Any other, by its code.
    Other(u8),
}

/// Why a request wasn't carried out (X protocol, appendix B: Errors).
#[derive(Clone, Copy, Debug, PartialEq, Eq)]
pub struct DisplayError {
    pub kind: ErrorKind,
    /// The window, atom or number at fault.
    pub resource: u32,
    /// The opcode of the request.
    pub opcode: u8,
}

/// A window that an event is about.
#[derive(Clone, Copy, Debug, PartialEq, Eq)]
pub struct WindowNotice {
    /// The window at which the event was heard: the window itself, or its parent.
    pub heard: u32,
    pub window: u32,
}

/// An event (X protocol, chapter 11).
#[derive(Clone, Copy, Debug, PartialEq, Eq)]
pub enum Event {
    CreateNotify(WindowNotice),
    DestroyNotify(WindowNotice),
    UnmapNotify(WindowNotice),
    MapNotify(WindowNotice),
    ReparentNotify(WindowNotice),
    /// A property of a window has another value, or is gone.
    PropertyNotify { window: u32, property: u32 },
    /// A ClientMessage of format 32.
    Message(ClientMessage),
    /// Any other event, which is passed over.
    Other,
}

/// A part of what a display sends behind the set-up.
#[derive(Clone, Copy, Debug, PartialEq, Eq)]
pub enum Part {
    /// The request of this number, of which 16 bits come, wasn't carried out.
    Error {
        sequence: u16,
        error: DisplayError,
    },
    /// The answer to the request of this number: `read_reply` reads it by what was asked.
    Reply {
        sequence: u16,
    },
    Event {
        /// A program sent it by SendEvent, so it says nothing of the display.
        sent: bool,
        event: Event,
    },
    /// Fewer than 32 bytes, which are no part.
    Short,
}
