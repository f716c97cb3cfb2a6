use round_agreement::Wanted;
use sm_world::Conn;

/// Who asked for a round that waits.
#[derive(Clone, Copy, Debug)]
pub enum Owner {
    /// This client, by a SaveYourselfRequest.
    Sender(Conn),
    /// The manager, for a client that is new.
    Newcomer,
    /// The operator.
    Operator,
    /// A client that has left since.
    Nobody,
}

/// A round that waits for its turn.
#[derive(Clone, Copy, Debug)]
pub struct Wait {
    pub wanted: Wanted,
    pub owner: Owner,
}
