ghost use Rattle.std.specs.Prelude.{◌≡◌};
ghost use Rattle.window_follower.specs.Questions.{answer_kind as kind_of_answer, has_answer as has_reply};

use crate::{Name, RootProperty, WindowProperty};
use display_messages::ReplyKind;
use owned_lists::ListOf;

/// What a display is asked, and what for.
#[derive(Clone, Copy, Debug, PartialEq, Eq)]
pub enum Question {
    /// The atom of a name.
    Atom(Name),
    /// The opcode of X-Resource.
    Extension,
    /// That X-Resource 1.2 is meant.
    Version {
        opcode: u8,
    },
    /// These events of a window are to come.
    Watch {
        window: u32,
        events: u32,
    },
    /// A property of a window that is followed.
    Property {
        window: u32,
        property: WindowProperty,
    },
    /// A property of the root, or of the window that its check names.
    Root {
        window: u32,
        property: RootProperty,
    },
    /// Who has asked for the events of the root.
    Events {
        window: u32,
    },
    /// The process to which a window belongs.
    Process {
        opcode: u8,
        window: u32,
    },
    /// The children of a window, which is so many levels below the root.
    Children {
        window: u32,
        depth: u8,
    },
    /// Whether a window that is so many levels below the root has a WM_STATE.
    Managed {
        window: u32,
        depth: u8,
    },
    /// Whether a child of the root is shown.
    Shown {
        window: u32,
    },
    /// A window is asked to close.
    Close {
        window: u32,
    },
    /// The window manager is asked to show a window.
    Show {
        root: u32,
        window: u32,
    },
    /// A window's program is asked whether it listens.
    Ping {
        window: u32,
        stamp: u32,
    },
    /// A mark of the caller's; the one that is asked for by itself has the number 0.
    Mark {
        number: u32,
    },
}

/// Questions in the order in which they are asked.
pub type QuestionList = ListOf<Question>;

impl Question {
    /// Whether it has an answer other than an Error.
    pub fn has_answer(self) -> bool
        ensures { result ≡ has_reply self }
    {
        match self {
            Question::Watch { .. } => false,
            Question::Close { .. } => false,
            Question::Show { .. } => false,
            Question::Ping { .. } => false,
            _ => true,
        }
    }

    /// Which reply it has.
    pub fn answer_kind(self) -> Option<ReplyKind>
        ensures { result ≡ kind_of_answer self }
    {
        match self {
            Question::Atom(_) => Some(ReplyKind::Atom),
            Question::Extension => Some(ReplyKind::Extension),
            Question::Version { .. } => Some(ReplyKind::ResourceVersion),
            Question::Watch { .. } => None,
            Question::Property { .. } => Some(ReplyKind::Property),
            Question::Root { .. } => Some(ReplyKind::Property),
            Question::Events { .. } => Some(ReplyKind::Attributes),
            Question::Process { .. } => Some(ReplyKind::Process),
            Question::Children { .. } => Some(ReplyKind::Tree),
            Question::Managed { .. } => Some(ReplyKind::Property),
            Question::Shown { .. } => Some(ReplyKind::Attributes),
            Question::Close { .. } => None,
            Question::Show { .. } => None,
            Question::Ping { .. } => None,
            Question::Mark { .. } => Some(ReplyKind::Mark),
        }
    }
}
