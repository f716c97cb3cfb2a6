use owned_lists::Octets;

/// Where a display is.
#[derive(Debug, Drop)]
pub enum Place {
    /// On this machine, at the sockets that have the display's number.
    Local,
    /// At the socket with this path.
    Path(Octets),
    /// At a host, over TCP.
    Host { host: Octets, port: u16 },
}

/// A display, as DISPLAY names it.
#[derive(Debug, Drop)]
pub struct DisplayName {
    pub place: Place,
    /// Which display it is of its place; of a path always 0.
    pub number: u16,
    /// The screen to begin with, counted from 0.
    pub screen: u8,
}
