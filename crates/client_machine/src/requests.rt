ghost use Rattle.std.specs.Prelude.{◌≡◌};
ghost use Rattle.client_machine.specs.Asking.{requested};

use crate::ClientPhase;
use ice_values::{Array8List, Dialog, PropertyList};
use round_agreement::Wanted;
use xsmp_messages::XsmpMessage;

/// What a client wants to send (XSMP, chapter 7).
#[derive(Debug, Drop)]
pub enum Request {
    /// It has saved, with success or without.
    Done(bool),
    /// It wants to show a dialog.
    Interact(Dialog),
    /// It has talked to the user, who wants the shutdown cancelled or not.
    InteractDone(bool),
    /// It wants to save when the others are done.
    PhaseTwo,
    /// It wants a save of all clients, or where `only` is some connection, of itself. `from` is not
    /// read.
    Save(Wanted),
    /// It sets properties.
    Set(PropertyList),
    /// It takes back the properties of these names.
    Delete(Array8List),
    /// It asks for its properties.
    Get,
    /// It closes, with texts for the user that say why.
    Close(Array8List),
}

/// Why a client may not send something.
#[derive(Clone, Copy, Debug, PartialEq, Eq)]
pub enum AskRefusal {
    /// The request has no place in the client's phase, or in the save that it was asked for.
    WrongPhase { phase: ClientPhase },
    /// Memory was wanting.
    NoMemory,
}

impl Request {
    /// The message that says it.
    pub(crate) fn message(self) -> XsmpMessage
        ensures { result ≡ requested self }
    {
        match self {
            Request::Done(success) => XsmpMessage::SaveYourselfDone { success },
            Request::Interact(dialog) => XsmpMessage::InteractRequest { dialog },
            Request::InteractDone(cancel) => XsmpMessage::InteractDone { cancel },
            Request::PhaseTwo => XsmpMessage::SaveYourselfPhase2Request,
            Request::Save(wanted) => XsmpMessage::SaveYourselfRequest {
                kind: wanted.kind,
                shutdown: wanted.shutdown,
                style: wanted.style,
                fast: wanted.fast,
                global: wanted.only.is_none(),
            },
            Request::Set(properties) => XsmpMessage::SetProperties { properties },
            Request::Delete(names) => XsmpMessage::DeleteProperties { names },
            Request::Get => XsmpMessage::GetProperties,
            Request::Close(reasons) => XsmpMessage::ConnectionClosed { reasons },
        }
    }
}
