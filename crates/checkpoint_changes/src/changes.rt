use checkpoint_records::Entry;
use ice_values::Array8;
use owned_lists::{Command, ListOf, Octets};

/// One change of a book.
#[derive(Drop)]
pub enum Change {
    /// The manager has opened the book so often.
    Epoch(u32),
    /// The entry with this ID is taken out.
    Remove(Array8),
    /// In the session of this name, this entry takes the place of the one with its ID. Where there
    /// is none it goes last; the session is made where there is none.
    Put(Octets, Entry),
    /// The pending command at this place, counted from 0, is taken out.
    Unpend(u32),
    /// This pending command goes last.
    Pend(Command),
}

/// Changes of a book, each made to what the one before it left.
pub type Delta = ListOf<Change>;

/// The CARD32 with which each change begins.
pub(crate) const EPOCH: u32 = 1;

pub(crate) const REMOVE: u32 = 2;

/// For an entry of `default`, behind a book of format 1.
pub(crate) const PUT_ALONE: u32 = 3;

/// For an entry with the name of its session, behind a book of format 2.
pub(crate) const PUT: u32 = 6;

pub(crate) const UNPEND: u32 = 4;

pub(crate) const PEND: u32 = 5;
