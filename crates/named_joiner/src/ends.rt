use owned_lists::Octets;

/// How a client came to its end.
#[derive(Clone, Copy, Debug, PartialEq, Eq)]
pub enum NamedEnd {
    /// The manager told the client to die, and it closes.
    Died,
    /// The manager answered with an Error of this class, which is fatal.
    Refused { class: u16 },
    /// The frame that begins at this byte of the stream, counted from 0, spells no message, or its
    /// header states too much. A place behind 18,446,744,073,709,551,615 is told as that number.
    Malformed { at: u64 },
}

/// What a piece of the manager's stream brought.
#[derive(Debug, Drop)]
pub struct NamedReply {
    /// What is to be sent.
    pub bytes: Octets,
    /// The client's end, where it came to it. What stands behind it in the piece was dropped.
    pub end: Option<NamedEnd>,
}

/// Why a piece brought nothing.
#[derive(Clone, Copy, Debug, PartialEq, Eq)]
pub enum HearFault {
    /// Memory was wanting, here or in a callback. The client is spent then.
    NoMemory,
    /// The client is spent: an earlier call answered want of memory, or gave an end.
    Stopped,
}

/// How a client is spent.
#[derive(Clone, Copy, Debug, PartialEq, Eq)]
pub enum Ending {
    /// It came to its end.
    Ended(NamedEnd),
    /// Memory was wanting.
    Starved,
}
