ghost use Rattle.std.specs.Prelude.{◌≡◌, ◌||◌, [], IfOk, OnOk, OnErr};
ghost use Rattle.checkpoint_records.specs.Books.{all_entries};
ghost use Rattle.discard_ledger.specs.Discards.{next_pending, with_stray, is_among as stands_in, issuable as may_run, without_commands};

use crate::commands::{copy_without, each_once, is_among};
use checkpoint_records::{Book, all_discards, discards_of, names};
use owned_lists::{Command, CommandList, NoMemory};
use std::alloc::Global;
use std::marker::Model;
use std::mem;

/// How many strays are kept at most.
const STRAY_LIMIT: usize = 128;

/// Which discards are yet to be run: the pending ones, which are those of the last book, and the
/// strays, which stopped standing in a client's table since then.
#[derive(Drop)]
pub struct Ledger {
    pending: CommandList,
    strays: Vec<Command>,
}

impl Model for Ledger {
    ghost use Rattle.discard_ledger.specs.Discards.{Account};

    ghost Value = { Account };

    ghost view = { λ ledger. record { pending = ledger.pending; strays = ledger.strays.items } };
}

impl Ledger {
    /// These pending commands, and no strays; this takes no memory.
    pub fn new(alloc: Global, pending: CommandList) -> Ledger
        ensures pending { result.pending ≡ pending }
        ensures strays { result.strays ≡ [] }
    {
        Ledger {
            pending,
            strays: Vec::new(alloc),
        }
    }

    /// Notes a DiscardCommand that stopped standing in a client's table. It becomes a stray unless
    /// the book names it, or the same command is pending or a stray already, or there are 128
    /// strays. A refused call changes nothing.
    pub fn stray(&mut self, command: Command, book: &Book) -> Result<(), NoMemory>
        ensures strays { OnOk result (self.new.strays
            ≡ with_stray book.now self.old.pending self.old.strays command) }
        ensures pending { self.new.pending ≡ self.old.pending }
        ensures err { OnErr result (self.new ≡ self.old) }
    {
        if self.strays.len() >= STRAY_LIMIT {
            return Ok(());
        }
        if self.keeps(&command) || names(*self.strays.allocator(), book, &command)? {
            return Ok(());
        }
        self.strays.push(command)?;
        Ok(())
    }

    /// Makes the pending list the one of a new book: what was pending, then the DiscardCommands
    /// of the old book's chosen entries, then the strays, each once, and without what the new book
    /// names, in whichever session.
    /// There are no strays then. A refused call changes nothing.
    pub fn retire(&mut self, old: &Book, new: &Book) -> Result<(), NoMemory>
        ensures pending { OnOk result (self.new.pending
            ≡ next_pending self.old.pending old.now.entries self.old.strays (all_entries new.now)) }
        ensures strays { OnOk result (self.new.strays ≡ []) }
        ensures err { OnErr result (self.new ≡ self.old) }
    {
        self.pending = self.next_pending(old, new)?;
        self.strays.clear();
        Ok(())
    }

    /// Copies of the pending commands that may be run now: those that aren't among `live`, which
    /// are the DiscardCommands of the clients that are there.
    pub fn issuable(&self, live: &CommandList) -> Result<CommandList, NoMemory>
        ensures { IfOk result (λ commands. commands ≡ may_run live.now self.now.pending) }
    {
        let alloc = *self.strays.allocator();
        copy_without(alloc, self.pending.as_slice(), live.as_slice())
    }

    /// Takes the commands that were tried out of the pending ones. This takes no memory.
    pub fn note(&mut self, tried: &CommandList)
        ensures pending { self.new.pending ≡ without_commands tried.now self.old.pending }
        ensures strays { self.new.strays ≡ self.old.strays }
    {
        let none = CommandList::new(*self.strays.allocator());
        let mut pending = mem::replace(&mut self.pending, none).into_vec();
        pending.retain(|command| !is_among(command, tried.as_slice()));
        self.pending = CommandList::from_vec(pending);
    }

    /// The commands that are yet to be run.
    pub fn pending(&self) -> &CommandList
        ensures { result.now ≡ self.now.pending }
    {
        &self.pending
    }

    /// Whether the same command is pending or a stray.
    fn keeps(&self, command: &Command) -> bool
        ensures { result
            ≡ (stands_in command.now self.now.pending || stands_in command.now self.now.strays) }
    {
        is_among(command, self.pending.as_slice()) || is_among(command, &self.strays)
    }

    fn next_pending(&self, old: &Book, new: &Book) -> Result<CommandList, NoMemory>
        ensures { IfOk result (λ commands. commands
            ≡ next_pending self.now.pending old.now.entries self.now.strays (all_entries new.now)) }
    {
        let alloc = *self.strays.allocator();
        let discards = discards_of(alloc, old.entries.as_slice())?;
        let named = all_discards(alloc, new)?;
        let kept = self.pending.as_slice();
        let told = discards.as_slice();
        each_once(alloc, kept, told, &self.strays, named.as_slice())
    }
}
