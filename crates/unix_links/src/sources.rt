use mio::Token;
use sm_world::Conn;

/// What can have something for us. The number of a client or an operator is never used again, so
/// neither is its token: what the system tells too late of a closed socket is nobody's.
#[derive(Clone, Copy, Debug, PartialEq, Eq)]
pub enum Source {
    /// The clients' door at its path.
    Clients,
    /// The clients' door in the abstract namespace.
    Hidden,
    /// The operators' door.
    Control,
    /// A client's connection, or with the number 0 the one to an outer manager.
    Client(Conn),
    Operator(u32),
}

const FIRST: usize = 4;

impl Source {
    pub fn token(self) -> Token {
        Token(match self {
            Source::Clients => 0,
            Source::Hidden => 1,
            Source::Control => 2,
            Source::Client(conn) => FIRST + 2 * (conn as usize),
            Source::Operator(number) => FIRST + 2 * (number as usize) + 1,
        })
    }

    /// The source of a token.
    pub fn of(token: Token) -> Source {
        match token.0 {
            0 => Source::Clients,
            1 => Source::Hidden,
            2 | 3 => Source::Control,
            number => {
                let place = u32::try_from((number - FIRST) / 2).unwrap_or(0);
                if number % 2 == 0 {
                    Source::Client(place)
                } else {
                    Source::Operator(place)
                }
            }
        }
    }
}
