/// What a part of a display's stream says to whoever follows its windows.
#[derive(Clone, Copy, Debug, PartialEq, Eq)]
pub enum News {
    /// Nothing but what it changes in what is known.
    Nothing,
    /// The program of a window answers a ping with this stamp.
    Pong { window: u32, stamp: u32 },
    /// All that was asked before this mark is answered.
    Marked { number: u32 },
}
