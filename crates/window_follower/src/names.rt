ghost use Rattle.std.specs.Prelude.{◌≡◌, ◌≤◌, length};
ghost use Rattle.window_follower.specs.Names.{name_text, number_name, property_text, root_text, text_name, type_text, word_text};

/// A property of a window whose value is a text (ICCCM, section 4.1; EWMH, Application Window Properties).
#[derive(Clone, Copy, Debug, PartialEq, Eq)]
pub enum TextProperty {
    /// WM_NAME
    OldTitle,
    /// _NET_WM_NAME
    Title,
    /// WM_CLIENT_MACHINE
    Machine,
    /// SM_CLIENT_ID
    ClientId,
}

/// A property of a window whose value is numbers: atoms, windows, a time or a process.
#[derive(Clone, Copy, Debug, PartialEq, Eq)]
pub enum NumberProperty {
    /// WM_STATE
    State,
    /// WM_PROTOCOLS
    Protocols,
    /// WM_CLIENT_LEADER
    Leader,
    /// WM_TRANSIENT_FOR
    TransientFor,
    /// _NET_WM_WINDOW_TYPE
    Types,
    /// _NET_WM_STATE
    States,
    /// _NET_WM_USER_TIME
    UserTime,
    /// _NET_WM_USER_TIME_WINDOW
    UserTimeWindow,
    /// _NET_WM_PID
    Process,
}

/// A property of a window from which something is known of it.
#[derive(Clone, Copy, Debug, PartialEq, Eq)]
pub enum WindowProperty {
    Text(TextProperty),
    Numbers(NumberProperty),
}

/// A property of the root window (EWMH, Root Window Properties).
#[derive(Clone, Copy, Debug, PartialEq, Eq)]
pub enum RootProperty {
    /// _NET_SUPPORTING_WM_CHECK, which a window of the window manager's has as well.
    Check,
    /// _NET_CLIENT_LIST
    Windows,
}

/// What a window is for (EWMH, _NET_WM_WINDOW_TYPE).
#[derive(Clone, Copy, Debug, PartialEq, Eq)]
pub enum WindowType {
    Normal,
    Dialog,
    Dock,
    Desktop,
    Splash,
    Utility,
    Toolbar,
    Menu,
    DropdownMenu,
    PopupMenu,
    Tooltip,
    Notification,
    Combo,
    DragAndDrop,
}

/// A word of messages and of the values of properties.
#[derive(Clone, Copy, Debug, PartialEq, Eq)]
pub enum Word {
    /// WM_DELETE_WINDOW
    DeleteWindow,
    /// _NET_WM_PING
    Ping,
    /// _NET_WM_STATE_MODAL
    Modal,
    /// _NET_ACTIVE_WINDOW
    ActiveWindow,
}

/// A name whose atom is asked for.
#[derive(Clone, Copy, Debug, PartialEq, Eq)]
pub enum Name {
    Property(WindowProperty),
    Root(RootProperty),
    OfType(WindowType),
    Word(Word),
}

fn text_spelling(property: TextProperty) -> &'static [u8]
    ensures is { result.now ≡ text_name property }
    ensures short { length result.now ≤ 40 }
{
    match property {
        TextProperty::OldTitle => b"WM_NAME",
        TextProperty::Title => b"_NET_WM_NAME",
        TextProperty::Machine => b"WM_CLIENT_MACHINE",
        TextProperty::ClientId => b"SM_CLIENT_ID",
    }
}

fn number_spelling(property: NumberProperty) -> &'static [u8]
    ensures is { result.now ≡ number_name property }
    ensures short { length result.now ≤ 40 }
{
    match property {
        NumberProperty::State => b"WM_STATE",
        NumberProperty::Protocols => b"WM_PROTOCOLS",
        NumberProperty::Leader => b"WM_CLIENT_LEADER",
        NumberProperty::TransientFor => b"WM_TRANSIENT_FOR",
        NumberProperty::Types => b"_NET_WM_WINDOW_TYPE",
        NumberProperty::States => b"_NET_WM_STATE",
        NumberProperty::UserTime => b"_NET_WM_USER_TIME",
        NumberProperty::UserTimeWindow => b"_NET_WM_USER_TIME_WINDOW",
        NumberProperty::Process => b"_NET_WM_PID",
    }
}

fn property_spelling(property: WindowProperty) -> &'static [u8]
    ensures is { result.now ≡ property_text property }
    ensures short { length result.now ≤ 40 }
{
    match property {
        WindowProperty::Text(property) => text_spelling(property),
        WindowProperty::Numbers(property) => number_spelling(property),
    }
}

fn root_spelling(property: RootProperty) -> &'static [u8]
    ensures is { result.now ≡ root_text property }
    ensures short { length result.now ≤ 40 }
{
    match property {
        RootProperty::Check => b"_NET_SUPPORTING_WM_CHECK",
        RootProperty::Windows => b"_NET_CLIENT_LIST",
    }
}

fn type_spelling(kind: WindowType) -> &'static [u8]
    ensures is { result.now ≡ type_text kind }
    ensures short { length result.now ≤ 40 }
{
    match kind {
        WindowType::Normal => b"_NET_WM_WINDOW_TYPE_NORMAL",
        WindowType::Dialog => b"_NET_WM_WINDOW_TYPE_DIALOG",
        WindowType::Dock => b"_NET_WM_WINDOW_TYPE_DOCK",
        WindowType::Desktop => b"_NET_WM_WINDOW_TYPE_DESKTOP",
        WindowType::Splash => b"_NET_WM_WINDOW_TYPE_SPLASH",
        WindowType::Utility => b"_NET_WM_WINDOW_TYPE_UTILITY",
        WindowType::Toolbar => b"_NET_WM_WINDOW_TYPE_TOOLBAR",
        WindowType::Menu => b"_NET_WM_WINDOW_TYPE_MENU",
        WindowType::DropdownMenu => b"_NET_WM_WINDOW_TYPE_DROPDOWN_MENU",
        WindowType::PopupMenu => b"_NET_WM_WINDOW_TYPE_POPUP_MENU",
        WindowType::Tooltip => b"_NET_WM_WINDOW_TYPE_TOOLTIP",
        WindowType::Notification => b"_NET_WM_WINDOW_TYPE_NOTIFICATION",
        WindowType::Combo => b"_NET_WM_WINDOW_TYPE_COMBO",
        WindowType::DragAndDrop => b"_NET_WM_WINDOW_TYPE_DND",
    }
}

fn word_spelling(word: Word) -> &'static [u8]
    ensures is { result.now ≡ word_text word }
    ensures short { length result.now ≤ 40 }
{
    match word {
        Word::DeleteWindow => b"WM_DELETE_WINDOW",
        Word::Ping => b"_NET_WM_PING",
        Word::Modal => b"_NET_WM_STATE_MODAL",
        Word::ActiveWindow => b"_NET_ACTIVE_WINDOW",
    }
}

/// How a name is spelled.
pub fn spelling(name: Name) -> &'static [u8]
    ensures is { result.now ≡ name_text name }
    ensures short { length result.now ≤ 40 }
{
    match name {
        Name::Property(property) => property_spelling(property),
        Name::Root(property) => root_spelling(property),
        Name::OfType(kind) => type_spelling(kind),
        Name::Word(word) => word_spelling(word),
    }
}
