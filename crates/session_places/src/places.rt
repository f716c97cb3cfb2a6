use owned_lists::{ListOf, Octets};

/// The name of a socket of this machine.
#[derive(Debug, Drop)]
pub enum SocketName {
    /// A name that no file has; in a socket address a NUL stands in front of it.
    Abstract(Octets),
    /// The path of a file.
    Path(Octets),
}

/// A socket at which the session's manager may be.
#[derive(Debug, Drop)]
pub struct SessionPlace {
    /// The address as it was listed, such as `local/HOST:PATH`: the network ID of the authority's
    /// entries.
    pub network: Octets,
    /// The machine that the address names. A client connects only where this is its own machine's
    /// name (as `uname -n` prints it) or `localhost`.
    pub host: Octets,
    pub socket: SocketName,
}

/// Sockets in the order in which they are tried.
pub type PlaceList = ListOf<SessionPlace>;
