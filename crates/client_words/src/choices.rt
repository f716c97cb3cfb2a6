/// What the words of `smclient` ask for.
#[derive(Clone, Copy, Debug)]
pub struct Choices<'a> {
    /// The path of the manager's socket.
    pub socket: &'a str,
    /// The path of the authority file.
    pub authority: &'a str,
    /// The ID of an earlier session, or an empty one.
    pub id: &'a str,
    /// The program as which the client shows itself.
    pub program: &'a str,
    /// How many saves the client waits for before it closes.
    pub saves: u32,
    /// Whether it wants to talk to the user where it may.
    pub interact: bool,
    /// Whether it saves in the second phase.
    pub phase_two: bool,
}
