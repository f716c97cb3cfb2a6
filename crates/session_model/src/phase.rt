/// How far a client is, as the manager sees it (XSMP, chapter 9: Client State Diagram). A
/// connection on which XSMP hasn't begun has no phase.
#[derive(Clone, Copy, Debug)]
pub enum Phase {
    /// XSMP has begun, and the client hasn't an ID yet.
    Unregistered,
    Idle,
    /// Asked to save, and saving in the first phase.
    Saving,
    /// Waits for the token while it saves.
    Asked,
    /// Has the token: it may talk to the user.
    Interacting,
    /// Waits until the others are done, to save behind them.
    WantsTwo,
    /// Saving in the second phase.
    SavingTwo,
    /// Waits for the token while it saves in the second phase.
    AskedTwo,
    /// Has the token in the second phase.
    InteractingTwo,
    /// Has saved, with or without success; the round still runs.
    Done,
    /// Its round was cancelled, and its answer to that round's SaveYourself is still to come.
    Owing,
    /// Was told to die.
    Dying,
}
