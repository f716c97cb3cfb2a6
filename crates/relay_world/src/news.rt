ghost use Rattle.sm_world.specs.Events.{HasPieceSize};

use sm_world::{Conn, Event};

/// What is to be told of a connection.
#[derive(Clone, Copy, Debug, PartialEq, Eq)]
pub enum News {
    Came(Conn),
    /// It was dropped.
    Went(Conn),
}

impl News {
    pub fn event(self) -> Event
        ensures { HasPieceSize result }
    {
        match self {
            News::Came(conn) => Event::Joined(conn),
            News::Went(conn) => Event::Gone(conn),
        }
    }
}
