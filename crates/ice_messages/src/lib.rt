//! The messages of the Inter-Client Exchange Protocol.
#![tactic(auto)]

mod decoding;
mod encoding;
mod laws;
mod lengths;
mod message;

pub use decoding::decode_ice;
pub use encoding::{encode_ice, minor};
pub use laws::{an_encoded_message_is_decoded, cut_bytes_are_refused, decoding_is_exact};
pub use message::{IceMessage, LAST_ICE_MINOR};
