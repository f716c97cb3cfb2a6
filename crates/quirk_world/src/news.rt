ghost use Rattle.sm_world.specs.Events.{HasPieceSize};

use client_quirks::StreamPiece;
use owned_lists::{Command, Octets};
use sm_world::{Conn, Event};

/// What is to be handed on of a connection.
#[derive(Debug, Drop)]
pub enum News {
    Piece(Conn, StreamPiece),
    Gone(Conn),
}

/// What is to be done before anything else is heard.
#[derive(Debug, Drop)]
pub enum Errand {
    /// These bytes are sent to a client.
    Send(Conn, Octets),
    /// Whether a client was answered for has changed to this.
    Excuse(Conn, bool),
    /// A client that has left is started again.
    Start(Conn, Command),
}

impl Errand {
    /// Whose errand it is.
    pub fn conn(&self) -> Conn {
        match self {
            Errand::Send(conn, _) => *conn,
            Errand::Excuse(conn, _) => *conn,
            Errand::Start(conn, _) => *conn,
        }
    }
}

impl News {
    /// Whose news it is.
    pub fn conn(&self) -> Conn {
        match self {
            News::Piece(conn, _) => *conn,
            News::Gone(conn) => *conn,
        }
    }

    /// The event as which it is handed on.
    pub fn into_event(self) -> Event
        ensures size { HasPieceSize result }
    {
        match self {
            News::Piece(conn, piece) => Event::Piece(conn, piece.into_octets()),
            News::Gone(conn) => Event::Gone(conn),
        }
    }
}
