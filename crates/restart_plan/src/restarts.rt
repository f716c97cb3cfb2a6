ghost use Rattle.std.specs.Prelude.{◌≡◌, IfOk};
ghost use Rattle.restart_plan.specs.Restarts.{restart_of, opening_restart, opening_restarts, respawn as respawned};

use checkpoint_records::{Book, Entry};
use owned_lists::{Command, CommandList, NoMemory};
use std::alloc::Global;
use xsmp_properties::{Hint, PropertyTable, command_of, hint_of};

/// How often a client is started again at most in one run, as it departs.
const RESPAWN_LIMIT: u32 = 5;

fn restart_of(alloc: Global, table: &PropertyTable) -> Result<Option<Command>, NoMemory>
    ensures { IfOk result (λ command. command ≡ restart_of table.now) }
{
    command_of(alloc, table, b"RestartCommand")
}

/// What is started for an entry when its book is opened.
fn opening_restart(alloc: Global, entry: &Entry) -> Result<Option<Command>, NoMemory>
    ensures { IfOk result (λ command. command ≡ opening_restart entry.now) }
{
    match hint_of(&entry.table) {
        Hint::Never => Ok(None),
        Hint::IfRunning => restart_of(alloc, &entry.table),
        Hint::Anyway => restart_of(alloc, &entry.table),
        Hint::Immediately => restart_of(alloc, &entry.table),
    }
}

/// What is started when a book is opened: the RestartCommand of each entry that has one and whose
/// hint isn't Never, in the order of the book.
pub fn plan(alloc: Global, book: &Book) -> Result<CommandList, NoMemory>
    ensures { IfOk result (λ commands. commands ≡ opening_restarts book.now.entries) }
{
    let mut commands = CommandList::new(alloc);
    for entry in book.entries.as_slice() {
        if let Some(command) = opening_restart(alloc, entry)? {
            commands.push(command)?;
        }
    }
    Ok(commands)
}

/// What is started as the client of an entry departs, where that was done `count` times before in
/// this run: the entry's RestartCommand. None where its hint isn't Immediately, where it has no
/// RestartCommand, and from the count 5 on.
pub fn respawn(alloc: Global, entry: &Entry, count: u32) -> Result<Option<Command>, NoMemory>
    ensures { IfOk result (λ command. command ≡ respawned entry.now count) }
{
    if hint_of(&entry.table) == Hint::Immediately && count < RESPAWN_LIMIT {
        restart_of(alloc, &entry.table)
    } else {
        Ok(None)
    }
}
