/// How far the rounds of all clients are. They are numbered from 1 on, in the order in which they
/// begin; a number is 0 where there was no such round. The largest number is that of every round
/// behind it.
#[derive(Clone, Copy, Debug, PartialEq, Eq)]
pub struct Marks {
    /// The last round that began.
    pub begun: u64,
    /// The last round that ended, in whichever way.
    pub ended: u64,
    /// The last round that was agreed.
    pub agreed: u64,
}
