use owned_lists::{ListOf, Octets};
use sm_world::Conn;
use trace_replay::Direction;

/// How a connection ended.
#[derive(Clone, Copy, Debug, PartialEq, Eq)]
pub enum LaneEnd {
    Open,
    Gone,
    Shut,
}

/// One connection, from where it joins. Rows are counted downwards.
#[derive(Debug, Drop)]
pub struct Lane {
    pub conn: Conn,
    /// The program, as far as it was said.
    pub program: Option<Octets>,
    /// The command that began it, if it is one that was started.
    pub begun: Octets,
    pub from: u64,
    pub to: u64,
    pub end: LaneEnd,
    /// Whether its set-up has its arrow.
    pub greeted: bool,
    /// The save that is under way.
    pub save: Option<usize>,
}

/// An arrow: a message.
#[derive(Debug, Drop)]
pub struct Arrow {
    pub lane: u64,
    pub row: u64,
    pub direction: Direction,
    pub name: Octets,
    /// All of the message.
    pub text: Octets,
}

/// The save of one client in a round.
#[derive(Clone, Copy, Debug, PartialEq, Eq)]
pub struct Save {
    pub lane: u64,
    pub from: u64,
    pub to: u64,
    pub logout: bool,
}

/// The saves that begin together.
#[derive(Clone, Copy, Debug, PartialEq, Eq)]
pub struct Round {
    pub row: u64,
    pub first: u64,
    pub last: u64,
    pub logout: bool,
}

/// What stands in the manager's own lane.
#[derive(Debug, Drop)]
pub struct Note {
    pub row: u64,
    pub text: Octets,
}

/// What the time is at a row.
#[derive(Clone, Copy, Debug, PartialEq, Eq)]
pub struct Moment {
    pub row: u64,
    pub clock: u64,
}

pub type LaneList = ListOf<Lane>;

pub type ArrowList = ListOf<Arrow>;

pub type NoteList = ListOf<Note>;
