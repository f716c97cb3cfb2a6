use owned_lists::{ListOf, Octets};

/// What a manager is to do towards its outer one, and in its own session.
#[derive(Debug, Drop)]
pub enum AgentAct {
    /// These bytes, one message, are to be sent to the outer manager.
    Send(Octets),
    /// The session is to be saved. Its end is to be told (`Agent::ended`).
    Checkpoint,
    /// The end of the last such save is no longer to be told.
    Forget,
    /// The session is to be shut down.
    Shutdown,
    /// The connection to the outer manager is to be shut.
    Drop,
}

pub type AgentActs = ListOf<AgentAct>;

/// Why an agent gave nothing.
#[derive(Clone, Copy, Debug, PartialEq, Eq)]
pub enum AgentFault {
    /// Memory was wanting. The agent is spent then.
    NoMemory,
    /// The agent is spent: an earlier call answered want of memory.
    Stopped,
}
