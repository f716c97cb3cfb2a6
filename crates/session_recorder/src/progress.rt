/// How far the record of a session has come.
#[derive(Clone, Copy, Debug, PartialEq, Eq)]
pub enum Progress {
    /// Nothing was printed yet that tells where the session is found.
    Waiting,
    /// Each line is kept.
    Recording,
    /// A line was refused, and no other is kept.
    Lost,
    /// There was no memory for a line, and no other is kept.
    Starved,
}
