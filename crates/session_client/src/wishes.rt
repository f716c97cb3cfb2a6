ghost use Rattle.std.specs.Prelude.{◌≡◌};
ghost use Rattle.protocol_messages.specs.declared.message.Message.TheVariants.{Xsmp};
ghost use Rattle.session_client.specs.Wishes.{wished, is_global as is_global_spec, is_shutdown as is_shutdown_spec};

use ice_values::{SaveKind, SaveStyle};
use protocol_messages::Message;
use xsmp_messages::XsmpMessage;

/// Whom a save is asked for.
#[derive(Clone, Copy, Debug, PartialEq, Eq)]
pub enum Scope {
    /// The client itself.
    Own,
    /// All clients.
    All,
    /// All clients, and the session ends where all agree.
    Shutdown,
}

/// A save that a client asks for (XSMP, chapter 7: SaveYourselfRequest).
#[derive(Clone, Copy, Debug, PartialEq, Eq)]
pub struct SaveWish {
    pub kind: SaveKind,
    /// Which dialogs may be shown.
    pub style: SaveStyle,
    /// Whether it is to be as quick as can be.
    pub fast: bool,
    pub scope: Scope,
}

impl Scope {
    fn is_global(self) -> bool
        ensures { result ≡ is_global_spec self }
    {
        self != Scope::Own
    }

    fn is_shutdown(self) -> bool
        ensures { result ≡ is_shutdown_spec self }
    {
        self == Scope::Shutdown
    }
}

/// The message that asks for it.
pub(crate) fn wish_message(wish: SaveWish) -> Message
    ensures { result ≡ Xsmp (wished wish) }
{
    Message::Xsmp(XsmpMessage::SaveYourselfRequest {
        kind: wish.kind,
        shutdown: wish.scope.is_shutdown(),
        style: wish.style,
        fast: wish.fast,
        global: wish.scope.is_global(),
    })
}
