//! The messages of the X Session Management Protocol.
#![tactic(auto)]

mod checks;
mod decoding;
mod encoding;
mod laws;
mod lengths;
mod message;
mod refusals;
mod view;
mod viewing;

pub use decoding::decode_xsmp;
pub use encoding::{encode_xsmp, minor};
pub use laws::{an_encoded_message_is_decoded, cut_bytes_are_refused, decoding_is_exact};
pub use message::{LAST_XSMP_MINOR, XsmpMessage};
pub use refusals::ViewRefusal;
pub use view::XsmpView;
pub use viewing::view_xsmp;
