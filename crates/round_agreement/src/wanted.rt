use ice_values::{SaveKind, SaveStyle};
use sm_world::Conn;

/// What a round is begun for (XSMP, chapter 7: SaveYourself).
#[derive(Clone, Copy, Debug, PartialEq, Eq)]
pub struct Wanted {
    /// The one member of a round for a client alone; None where all clients are asked.
    pub only: Option<Conn>,
    /// Whose SaveYourselfRequest it was; None for the round of a new client and for the operator's.
    pub from: Option<Conn>,
    /// What is to be saved.
    pub kind: SaveKind,
    /// Whether the session ends where all agree.
    pub shutdown: bool,
    /// Which dialogs the members may show.
    pub style: SaveStyle,
    /// Whether the members are to save as quickly as they can.
    pub fast: bool,
}
