use owned_lists::{ListOf, Octets};

/// What is answered by a reply: the requests that have one.
#[derive(Clone, Copy, Debug, PartialEq, Eq)]
pub enum ReplyKind {
    /// InternAtom
    Atom,
    /// GetProperty
    Property,
    /// GetWindowAttributes
    Attributes,
    /// QueryTree
    Tree,
    /// GetInputFocus
    Mark,
    /// QueryExtension
    Extension,
    /// QueryVersion of X-Resource
    ResourceVersion,
    /// QueryClientIds of X-Resource
    Process,
}

/// Numbers of windows.
pub type WindowList = ListOf<u32>;

/// A property, or its front.
#[derive(Debug, Drop)]
pub struct Property {
    /// How many bits each of its items has: 8, 16 or 32.
    pub format: u8,
    /// The atom of its type.
    pub kind: u32,
    /// How many bytes of it didn't come.
    pub after: u32,
    /// Its items, those of 16 or 32 bits with the least significant byte first.
    pub value: Octets,
}

/// What a window is like.
#[derive(Clone, Copy, Debug, PartialEq, Eq)]
pub struct Attributes {
    /// It shows something, where the others take input alone.
    pub input_output: bool,
    pub mapped: bool,
    /// No window manager looks after it, as with menus.
    pub override_redirect: bool,
    /// The events of it that anybody has asked for.
    pub all_events: u32,
}

/// What the display answers to a request.
#[derive(Debug, Drop)]
pub enum Reply {
    Atom(u32),
    /// The window has no such property.
    NoProperty,
    Property(Property),
    Attributes(Attributes),
    Tree { parent: u32, children: WindowList },
    Mark,
    /// The extension's opcode, where the display has it.
    Extension(Option<u8>),
    ResourceVersion { major: u16, minor: u16 },
    /// The process of the window's program, where the display knows it.
    Process(Option<u32>),
    /// The bytes are no such reply.
    NotUnderstood,
}

/// What a display answers to a set-up (X protocol, chapter 8: Server Response).
#[derive(Debug, Drop)]
pub enum SetupAnswer {
    /// It doesn't let the program in, and the stream ends.
    Refused { reason: Octets },
    /// It wants more of an authorization than a cookie.
    MoreWanted,
    /// It lets the program in; the root window of the screen that was asked for.
    Accepted { root: u32 },
    /// It lets the program in, and its answer holds no screen of this number.
    NoScreen,
    /// The bytes are no answer to a set-up.
    NotUnderstood,
}
