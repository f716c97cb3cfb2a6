use owned_lists::{Duplicate, ListOf, NoMemory, Octets};

/// The number of a connection.
pub type Conn = u32;

pub type ConnList = ListOf<Conn>;

pub type EventList = ListOf<Event>;

/// How many bytes a piece can have at most.
pub const PIECE_LIMIT: usize = 65_536;

/// What the operator asks for.
#[derive(Debug, Drop)]
pub enum Order {
    Checkpoint,
    Shutdown,
    Cancel,
    Status,
    /// Shut this connection.
    DropConn(Conn),
    /// Take the client of this ID out of the checkpoint.
    Forget(Octets),
}

/// What comes from outside, one at a time.
#[derive(Debug, Drop)]
pub enum Event {
    /// A connection was opened.
    Joined(Conn),
    /// Bytes came on a connection.
    Piece(Conn, Octets),
    /// The other side closed a connection.
    Gone(Conn),
    Operator(Order),
    /// So many milliseconds went by since the last event.
    Tick(u64),
    /// Nothing comes any more.
    End,
}

impl Duplicate for Order {
    fn copy(&self) -> Result<Order, NoMemory> {
        match self {
            Order::Checkpoint => Ok(Order::Checkpoint),
            Order::Shutdown => Ok(Order::Shutdown),
            Order::Cancel => Ok(Order::Cancel),
            Order::Status => Ok(Order::Status),
            Order::DropConn(conn) => Ok(Order::DropConn(*conn)),
            Order::Forget(id) => Ok(Order::Forget(id.copy()?)),
        }
    }
}

impl Duplicate for Event {
    fn copy(&self) -> Result<Event, NoMemory> {
        match self {
            Event::Joined(conn) => Ok(Event::Joined(*conn)),
            Event::Piece(conn, bytes) => Ok(Event::Piece(*conn, bytes.copy()?)),
            Event::Gone(conn) => Ok(Event::Gone(*conn)),
            Event::Operator(order) => Ok(Event::Operator(order.copy()?)),
            Event::Tick(milliseconds) => Ok(Event::Tick(*milliseconds)),
            Event::End => Ok(Event::End),
        }
    }
}
