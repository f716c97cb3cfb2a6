ghost use Rattle.std.specs.Prelude.{◌≡◌, min, cond, IfOk};
ghost use Rattle.start_waves.specs.Ranks.{lowest, priority_of_command, is_ranked as stands_in, ranks_of as ranks_of_entries};

use crate::priority_of;
use checkpoint_records::{Entry, same_command};
use owned_lists::{Command, Duplicate, ListOf, NoMemory};
use std::alloc::Global;
use xsmp_properties::command_of;

/// A program of a login.
#[derive(Drop)]
pub struct Ranked {
    pub command: Command,
    /// When it is started: lower is earlier.
    pub priority: u8,
}

pub type RankedList = ListOf<Ranked>;

/// The program that the RestartCommand of each entry of a session starts, in the order of the book.
pub fn ranks_of(alloc: Global, entries: &[Entry]) -> Result<RankedList, NoMemory>
    ensures { IfOk result (λ ranks. ranks ≡ ranks_of_entries entries.now) }
{
    let mut ranks = RankedList::new(alloc);
    for entry in entries {
        if let Some(command) = command_of(alloc, &entry.table, b"RestartCommand")? {
            let priority = priority_of(&entry.table);
            ranks.push(Ranked { command, priority })?;
        }
    }
    Ok(ranks)
}

/// The lowest priority of programs, and 255 where there are none.
#[tactic(auto, using(crate::proofs::LowestLaws::lowest_more))]
pub(crate) fn lowest(programs: &[Ranked]) -> u8
    ensures { result ≡ lowest programs.now }
{
    let mut lowest = u8::MAX;
    for it in programs {
        lowest = lowest.min(it.priority);
    }
    lowest
}

/// Whether a command is that of one of these programs.
pub(crate) fn is_ranked(command: &Command, ranks: &[Ranked]) -> bool
    ensures { result ≡ stands_in command.now ranks.now }
{
    ranks.iter().any(|it| same_command(command, &it.command))
}

/// The lower of two priorities, where the second counts.
fn lower(lowest: u8, counts: bool, priority: u8) -> u8
    ensures { result ≡ cond counts (min lowest priority) lowest }
{
    if counts { lowest.min(priority) } else { lowest }
}

/// The lowest priority of the programs that have this command.
pub(crate) fn priority_of_command(command: &Command, ranks: &[Ranked]) -> u8
    ensures { result ≡ priority_of_command command.now ranks.now }
{
    let mut lowest = u8::MAX;
    for it in ranks {
        let has = same_command(command, &it.command);
        lowest = lower(lowest, has, it.priority);
    }
    lowest
}
