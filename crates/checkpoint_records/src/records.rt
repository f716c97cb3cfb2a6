ghost use Rattle.std.specs.Prelude.{◌≡◌, IfOk};
ghost use Rattle.checkpoint_records.specs.Books.{empty_book};

use crate::{SharedEntries, default_name};
use ice_values::Array8;
use owned_lists::{CommandList, Duplicate, ListOf, NoMemory, Octets};
use std::alloc::Global;
use xsmp_properties::PropertyTable;

/// What is kept of one client.
#[derive(Drop)]
pub struct Entry {
    /// The client's ID (XSMP, chapter 6), as a RegisterClientReply gave it (chapter 7).
    pub id: Array8,
    /// What the client said of itself.
    pub table: PropertyTable,
}

/// Entries that are being put together.
pub type EntryList = ListOf<Entry>;

/// What is kept of the clients of one session.
#[derive(Drop)]
pub struct Named {
    /// 1 to 64 bytes from `!` to `~`.
    pub name: Octets,
    /// One entry for each client, in the order in which they came into the book.
    pub entries: SharedEntries,
}

pub type NamedList = ListOf<Named>;

/// What is kept of sessions between their logins. One of them is chosen: the one that runs.
#[derive(Drop)]
pub struct Book {
    /// One entry for each client of the chosen session, in the order in which they came into the
    /// book.
    pub entries: SharedEntries,
    /// The commands that are yet to be run, each of which discards a state that nobody needs.
    pub pending: CommandList,
    /// How often the manager has opened the book.
    pub epoch: u32,
    /// What the chosen session is called.
    pub name: Octets,
    /// The other sessions, all with entries, in the order of their names.
    pub others: NamedList,
}

impl Book {
    /// No sessions, no pending commands, and the epoch 0; `default` is chosen.
    pub fn empty(alloc: Global) -> Result<Book, NoMemory>
        ensures { IfOk result (λ book. book ≡ empty_book) }
    {
        Ok(Book {
            entries: SharedEntries::new(alloc, EntryList::new(alloc))?,
            pending: CommandList::new(alloc),
            epoch: 0,
            name: default_name(alloc)?,
            others: NamedList::new(alloc),
        })
    }
}

/// An equal book, which shares the entries.
pub fn copy_book(book: &Book) -> Result<Book, NoMemory>
    ensures { IfOk result (λ twin. twin ≡ book.now) }
{
    Ok(Book {
        entries: book.entries.copy()?,
        pending: book.pending.copy()?,
        epoch: book.epoch,
        name: book.name.copy()?,
        others: book.others.copy()?,
    })
}

impl Duplicate for Entry {
    fn copy(&self) -> Result<Entry, NoMemory> {
        Ok(Entry {
            id: self.id.copy()?,
            table: self.table.copy()?,
        })
    }
}

impl Duplicate for Named {
    fn copy(&self) -> Result<Named, NoMemory> {
        Ok(Named {
            name: self.name.copy()?,
            entries: self.entries.copy()?,
        })
    }
}
