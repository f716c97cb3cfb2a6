ghost use Rattle.std.specs.Prelude.{◌≡◌, ◌++◌, IfOk, OnOk};
ghost use Rattle.discard_ledger.specs.Discards.{is_among as stands_in, with_commands, without_commands, each_once as all_once};

use checkpoint_records::same_command;
use owned_lists::{Command, CommandList, Duplicate, NoMemory};
use std::alloc::Global;

/// Whether the same command is in the list.
pub(crate) fn is_among(command: &Command, commands: &[Command]) -> bool
    ensures { result ≡ stands_in command.now commands.now }
{
    commands.iter().any(|other| same_command(command, other))
}

/// Adds copies of those commands that aren't gone and don't stand in the list yet.
fn add_commands(
    list: &mut CommandList,
    commands: &[Command],
    gone: &[Command],
) -> Result<(), NoMemory>
    ensures { OnOk result
        (list.new ≡ with_commands list.old (without_commands gone.now commands.now)) }
{
    for command in commands {
        if !is_among(command, gone) && !is_among(command, list.as_slice()) {
            list.push(command.copy()?)?;
        }
    }
    Ok(())
}

/// Copies of the commands of three lists, each once, but for those that are gone.
pub(crate) fn each_once(
    alloc: Global,
    first: &[Command],
    second: &[Command],
    third: &[Command],
    gone: &[Command],
) -> Result<CommandList, NoMemory>
    ensures { IfOk result (λ list.
        list ≡ all_once (without_commands gone.now (first.now ++ second.now ++ third.now))) }
{
    let mut list = CommandList::new(alloc);
    add_commands(&mut list, first, gone)?;
    add_commands(&mut list, second, gone)?;
    add_commands(&mut list, third, gone)?;
    Ok(list)
}

/// Copies of those commands that aren't gone.
pub(crate) fn copy_without(
    alloc: Global,
    commands: &[Command],
    gone: &[Command],
) -> Result<CommandList, NoMemory>
    ensures { IfOk result (λ list. list ≡ without_commands gone.now commands.now) }
{
    let mut list = CommandList::new(alloc);
    for command in commands {
        if !is_among(command, gone) {
            list.push(command.copy()?)?;
        }
    }
    Ok(list)
}
