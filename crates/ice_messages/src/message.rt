use ice_values::{Endian, ErrorBody, Text16, TextList, VersionList};
use owned_lists::Octets;

/// The last minor opcode: those from 0 to it are the messages (ICE, chapter 7: ICE Minor opcodes).
pub const LAST_ICE_MINOR: u8 = 12;

/// A message of major opcode 0 (ICE, chapter 7).
#[derive(Debug, Drop)]
pub enum IceMessage {
    Error(ErrorBody),
    /// The order of all numbers that its sender writes from here on.
    ByteOrder(Endian),
    ConnectionSetup {
        /// The sender wants to be shown authentication.
        must: bool,
        vendor: Text16,
        release: Text16,
        /// The names of the authentication protocols that the sender can speak.
        names: TextList,
        versions: VersionList,
    },
    AuthenticationRequired {
        /// The place of a name in the list of the setup message, from 0 on.
        index: u8,
        proof: Octets,
    },
    AuthenticationReply {
        proof: Octets,
    },
    AuthenticationNextPhase {
        proof: Octets,
    },
    ConnectionReply {
        /// The place of a version in the list of the setup message, from 0 on.
        index: u8,
        vendor: Text16,
        release: Text16,
    },
    ProtocolSetup {
        /// The major opcode under which the sender will send the protocol's messages.
        opcode: u8,
        /// The sender wants to be shown authentication.
        must: bool,
        protocol: Text16,
        vendor: Text16,
        release: Text16,
        /// The names of the authentication protocols that the sender can speak.
        names: TextList,
        versions: VersionList,
    },
    ProtocolReply {
        /// The place of a version in the list of the setup message, from 0 on.
        index: u8,
        /// The major opcode under which the sender will send the protocol's messages.
        opcode: u8,
        vendor: Text16,
        release: Text16,
    },
    Ping,
    PingReply,
    WantToClose,
    NoClose,
}
