ghost use Rattle.std.specs.Prelude.{◌≡◌, MatchOption, None, Some};
ghost use Rattle.window_follower.specs.Facts.{is_withdrawn as withdrawn_at, learned, mapped_at, nothing_known, process_of, title_of, is_local as is_of_this_machine};

use crate::WindowType;
use owned_lists::Octets;

/// Whether a window is shown, as its WM_STATE says (ICCCM, section 4.1.3.1).
#[derive(Clone, Copy, Debug, PartialEq, Eq)]
pub enum WindowState {
    /// Nothing was heard of it yet.
    Untold,
    /// It has none, an empty one or 0.
    Withdrawn,
    Normal,
    Iconic,
    /// A number that the convention doesn't know.
    Other,
}

impl WindowState {
    /// Whether a window in this state is mapped, which was so before: an iconified one isn't.
    fn mapped(self, mapped: bool) -> bool
        ensures { result ≡ mapped_at self mapped }
    {
        match self {
            WindowState::Iconic => false,
            _ => mapped,
        }
    }
}

/// One thing that was heard of a window.
#[derive(Debug, Drop)]
pub enum Fact {
    State(WindowState),
    /// Whether it knows WM_DELETE_WINDOW, and whether it knows _NET_WM_PING.
    Protocols { deletes: bool, pings: bool },
    Leader(Option<u32>),
    TransientFor(Option<u32>),
    OldTitle(Option<Octets>),
    Title(Option<Octets>),
    Machine(Option<Octets>),
    ClientId(Option<Octets>),
    /// The first that is known of the types that it states.
    Purpose(Option<WindowType>),
    Modal(bool),
    UserTime(Option<u32>),
    UserTimeWindow(Option<u32>),
    /// The process that it states itself.
    Stated(Option<u32>),
    /// The process that the display knows for it.
    Owner(Option<u32>),
    Mapped(bool),
}

/// What is known of a window. A property that it doesn't have, or that isn't understood, is none.
#[derive(Debug, Drop)]
pub struct WindowFacts {
    pub state: WindowState,
    /// Whether it is asked to close by WM_DELETE_WINDOW (ICCCM, section 4.2.8.1).
    pub deletes: bool,
    /// Whether its program answers pings (EWMH, _NET_WM_PING).
    pub pings: bool,
    /// The window that leads its program's windows (ICCCM, section 5.1).
    pub leader: Option<u32>,
    /// The window that it belongs to (ICCCM, section 4.1.2.6).
    pub transient_for: Option<u32>,
    /// WM_NAME, in whatever encoding.
    pub old_title: Option<Octets>,
    /// _NET_WM_NAME, in UTF-8.
    pub title: Option<Octets>,
    /// The machine of its program (ICCCM, section 4.1.2.9).
    pub machine: Option<Octets>,
    /// The ID that its program has of a session (ICCCM, section 5.1).
    pub client_id: Option<Octets>,
    pub purpose: Option<WindowType>,
    pub modal: bool,
    /// When its user last did something in it, by the display's clock (EWMH, _NET_WM_USER_TIME).
    pub user_time: Option<u32>,
    /// The window that has its user time in its place.
    pub user_time_window: Option<u32>,
    pub stated: Option<u32>,
    pub owner: Option<u32>,
    /// It isn't known to be unmapped.
    pub mapped: bool,
}

impl WindowFacts {
    /// Nothing is known yet.
    pub fn new() -> WindowFacts
        ensures { result ≡ nothing_known }
    {
        WindowFacts {
            state: WindowState::Untold,
            deletes: false,
            pings: false,
            leader: None,
            transient_for: None,
            old_title: None,
            title: None,
            machine: None,
            client_id: None,
            purpose: None,
            modal: false,
            user_time: None,
            user_time_window: None,
            stated: None,
            owner: None,
            mapped: true,
        }
    }

    /// Takes what was heard in the place of what was known.
    pub fn learn(&mut self, fact: Fact)
        ensures { self.new ≡ learned fact self.old }
    {
        match fact {
            Fact::State(state) => {
                self.mapped = state.mapped(self.mapped);
                self.state = state;
            }
            Fact::Protocols { deletes, pings } => {
                self.deletes = deletes;
                self.pings = pings;
            }
            Fact::Leader(leader) => self.leader = leader,
            Fact::TransientFor(window) => self.transient_for = window,
            Fact::OldTitle(title) => self.old_title = title,
            Fact::Title(title) => self.title = title,
            Fact::Machine(machine) => self.machine = machine,
            Fact::ClientId(id) => self.client_id = id,
            Fact::Purpose(purpose) => self.purpose = purpose,
            Fact::Modal(modal) => self.modal = modal,
            Fact::UserTime(time) => self.user_time = time,
            Fact::UserTimeWindow(window) => self.user_time_window = window,
            Fact::Stated(process) => self.stated = process,
            Fact::Owner(process) => self.owner = process,
            Fact::Mapped(mapped) => self.mapped = mapped,
        }
    }

    /// Whether it is unmapped, and has no WM_STATE or a withdrawn one.
    pub fn is_withdrawn(&self) -> bool
        ensures { result ≡ withdrawn_at self.now.mapped self.now.state }
    {
        match (self.mapped, self.state) {
            (false, WindowState::Withdrawn) => true,
            _ => false,
        }
    }

    /// The process of its program: the one that the display knows for it, and without such a one the one
    /// that it states, which a program in a namespace of processes states wrongly.
    pub fn process(&self) -> Option<u32>
        ensures { result ≡ process_of self.now }
    {
        self.owner.or(self.stated)
    }

    /// Its title, by _NET_WM_NAME and without that by WM_NAME.
    pub fn title(&self) -> Option<&[u8]>
        ensures { MatchOption result (title_of self.now ≡ None) (λ title. title_of self.now ≡ Some title.now) }
    {
        match &self.title {
            Some(title) => Some(title.as_slice()),
            None => match &self.old_title {
                Some(title) => Some(title.as_slice()),
                None => None,
            },
        }
    }

    /// Whether its program runs on the machine of this name: it names no machine, this one or `localhost`.
    pub fn is_local(&self, host: &[u8]) -> bool
        ensures { result ≡ is_of_this_machine host.now self.now.machine }
    {
        match &self.machine {
            Some(machine) => machine.as_slice() == b"localhost".as_slice()
                || machine.as_slice() == host,
            None => true,
        }
    }
}
