ghost use Rattle.unix_links.specs.Arrivals.{IsArrival};

use sm_world::{Conn, Event};

/// What is to be told of a connection before anything else.
#[derive(Clone, Copy, Debug, PartialEq, Eq)]
pub enum News {
    /// It was taken in.
    Came(Conn),
    /// It was dropped.
    Went(Conn),
}

impl News {
    pub fn event(self) -> Event
        ensures size { IsArrival result }
    {
        match self {
            News::Came(conn) => Event::Joined(conn),
            News::Went(conn) => Event::Gone(conn),
        }
    }
}
