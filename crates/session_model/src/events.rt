use checkpoint_records::Book;
use ice_values::ErrorBody;
use owned_lists::{Command, Octets};
use sm_world::{Conn, Order};
use xsmp_messages::XsmpMessage;

/// What the session hears.
#[derive(Drop)]
pub enum SessionEvent {
    /// A connection was opened.
    Joined(Conn),
    /// XSMP has begun on it.
    Ready(Conn),
    /// A message came on it: the message, its number among all that came on the connection, and
    /// the whole frame.
    Said(Conn, XsmpMessage, u32, Octets),
    /// The connection is gone.
    Left(Conn),
    /// The operator asks for something.
    Operator(Order),
    /// So many milliseconds have passed.
    Tick(u64),
}

/// A message of a client that arrived.
#[derive(Drop)]
pub struct Arrival {
    pub conn: Conn,
    pub message: XsmpMessage,
    /// Its number among all that came on the connection, from 1 on.
    pub sequence: u32,
    /// The whole frame.
    pub frame: Octets,
}

/// Why a command is started.
#[derive(Clone, Copy, Debug, PartialEq, Eq)]
pub enum Reason {
    /// A client is started again: the run began, or the client departed and wants it at once.
    Restart,
    /// Nobody needs the state any more that the command discards.
    Discard,
    /// The operator had the client forgotten.
    Resign,
    /// The session ends.
    End,
}

/// What the session does to the outside.
#[derive(Drop)]
pub enum Act {
    /// This message is sent.
    Say(Conn, XsmpMessage),
    /// This Error is sent.
    Blame(Conn, ErrorBody),
    /// XSMP ends on the connection, which stays.
    Unset(Conn),
    /// The connection is shut.
    Shut(Conn),
    /// A command is started, for this reason.
    Start(Reason, Command),
    /// The book is written to the store.
    Commit(Book),
    /// A line is printed, which is given without its newline.
    Print(Octets),
    /// The run ends.
    Finish,
}
