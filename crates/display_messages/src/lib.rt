//! The few messages of the X protocol with which a program asks windows of others to close: the set-up, the requests, and what the display answers and tells.
#![tactic(auto)]

mod admission;
mod encoding;
mod hearing;
mod laws;
mod part;
mod places;
mod replies;
mod reply;
mod request;

pub use admission::read_setup_answer;
pub use encoding::{spell_request, spell_setup};
pub use hearing::read_part;
pub use laws::{a_sent_message_is_read, requests_state_their_length};
pub use part::{DisplayError, ErrorKind, Event, Part, WindowNotice};
pub use replies::{read_longs, read_reply, reply_kind};
pub use reply::{Attributes, Property, Reply, ReplyKind, SetupAnswer, WindowList};
pub use request::{
    ClientMessage, PROPERTY_CHANGE, Request, STRUCTURE_NOTIFY, SUBSTRUCTURE_NOTIFY,
    SUBSTRUCTURE_REDIRECT, Setup,
};
