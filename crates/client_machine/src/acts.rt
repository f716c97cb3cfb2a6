use crate::SaveAsk;
use ice_values::{Array8, PropertyList};
use xsmp_messages::XsmpMessage;

/// What a message from the manager asks of the client.
#[derive(Debug, Drop)]
pub enum ClientAct {
    Nothing,
    /// The client has this ID now.
    Registered(Array8),
    /// The previous ID was refused, and this message is to be sent, which registers without one.
    Again(XsmpMessage),
    /// The client is to save, or to talk to the user, and to say how it goes on.
    Save(SaveAsk),
    /// The client is to close and to end.
    Die,
    /// The shutdown was cancelled, and what the client saved is void.
    Cancelled,
    /// All clients have saved.
    Complete,
    /// The client's own properties, for which it had asked.
    Properties(PropertyList),
    /// An Error of this class ended the session for the client.
    Refused(u16),
    /// The message has no place here.
    Unexpected,
}
