use owned_lists::{ListOf, Octets};

/// What is to be done for a program that knows no session.
#[derive(Debug, Drop)]
pub enum KeeperAct {
    /// These bytes, one message, are to be sent to the manager.
    Send(Octets),
    /// The window of this number is to be asked to close.
    Close(u32),
    /// The window of this number is to be brought before the user.
    Show(u32),
    /// The window of this number is to be pinged.
    Ping(u32),
    /// The program is to be ended.
    Term,
    /// The program is to be started by its command.
    Start,
    /// The connection to the manager is to be shut.
    Drop,
}

pub type KeeperActs = ListOf<KeeperAct>;

/// Why a keeper gave nothing.
#[derive(Clone, Copy, Debug, PartialEq, Eq)]
pub enum KeeperFault {
    /// Memory was wanting. The keeper is spent then.
    NoMemory,
    /// The keeper is spent: an earlier call answered want of memory.
    Stopped,
}
