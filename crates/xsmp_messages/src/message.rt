use ice_values::{Array8, Array8List, Dialog, ErrorBody, PropertyList, SaveKind, SaveStyle};

/// The last minor opcode: those from 0 to it are the messages (XSMP, chapter 10: Messages).
pub const LAST_XSMP_MINOR: u8 = 18;

/// A message of XSMP, which each party sends under a major opcode of its own (XSMP, chapter 10).
#[derive(Debug, Drop)]
pub enum XsmpMessage {
    Error(ErrorBody),
    RegisterClient {
        /// The ID that the client had in an earlier session, or nothing.
        previous: Array8,
    },
    RegisterClientReply {
        id: Array8,
    },
    SaveYourself {
        kind: SaveKind,
        shutdown: bool,
        style: SaveStyle,
        fast: bool,
    },
    SaveYourselfRequest {
        kind: SaveKind,
        shutdown: bool,
        style: SaveStyle,
        fast: bool,
        /// All clients are to save, and not the sender alone.
        global: bool,
    },
    InteractRequest {
        dialog: Dialog,
    },
    Interact,
    InteractDone {
        /// The user wants the shutdown cancelled.
        cancel: bool,
    },
    SaveYourselfDone {
        success: bool,
    },
    Die,
    ShutdownCancelled,
    ConnectionClosed {
        /// Texts for the user that say why.
        reasons: Array8List,
    },
    SetProperties {
        properties: PropertyList,
    },
    DeleteProperties {
        names: Array8List,
    },
    GetProperties,
    GetPropertiesReply {
        properties: PropertyList,
    },
    SaveYourselfPhase2Request,
    SaveYourselfPhase2,
    SaveComplete,
}
