use checkpoint_records::Book;
use owned_lists::{Command, Octets};
use protocol_messages::Message;
use session_model::Reason;
use sm_world::Conn;

/// One thing that the manager does.
#[derive(Drop)]
pub enum Act {
    /// Sends a message on a connection.
    Say(Conn, Message),
    /// Closes a connection.
    Shut(Conn),
    /// Starts a command, for this reason, which the outside isn't told.
    Start(Reason, Command),
    /// Writes the book to the store.
    Commit(Book),
    /// Prints a line, which is given without its newline.
    Print(Octets),
    /// Ends the run.
    Finish,
}
