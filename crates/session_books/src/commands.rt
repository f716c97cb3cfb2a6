ghost use Rattle.std.specs.Prelude.{◌≡◌, filter_map, IfOk};
ghost use Rattle.session_model.specs.Books.{command_anyway as command_at_all};
ghost use Rattle.session_model.specs.Rules.{last_command as command_at_end};
ghost use Rattle.session_model.specs.Reading.{Clients as Seen};
ghost use Rattle.session_clients.specs.Clients.{clients_in};
ghost use Rattle.session_clients.specs.Ids.{registered_ids};

use checkpoint_records::{Entry, EntryList};
use owned_lists::{Command, CommandList, NoMemory};
use session_clients::{Clients, RegisteredIds};
use std::alloc::Global;
use xsmp_properties::{Hint, command_of, hint_of};

/// The command that an entry has under this name, where its hint is Anyway.
pub fn command_anyway(
    alloc: Global,
    entry: &Entry,
    name: &[u8],
) -> Result<Option<Command>, NoMemory>
    ensures { IfOk result (λ command. command ≡ command_at_all name.now entry.now) }
{
    match hint_of(&entry.table) {
        Hint::Anyway => command_of(alloc, &entry.table, name),
        Hint::IfRunning => Ok(None),
        Hint::Immediately => Ok(None),
        Hint::Never => Ok(None),
    }
}

/// The ShutdownCommand of an entry with the hint Anyway whose client isn't there.
fn last_command(
    alloc: Global,
    ids: &RegisteredIds<'_>,
    entry: &Entry,
) -> Result<Option<Command>, NoMemory>
    ensures { (clients : Seen) → ids.now ≡ registered_ids clients →
        IfOk result (λ command. command ≡ command_at_end clients entry.now) }
{
    match ids.client_of(entry.id.as_slice()) {
        Some(_) => Ok(None),
        None => command_anyway(alloc, entry, b"ShutdownCommand"),
    }
}

/// What is started when the session ends with these entries, in their order: the ShutdownCommand of
/// each one with the hint Anyway whose client isn't there (XSMP, chapter 11).
pub fn last_commands(
    alloc: Global,
    clients: &Clients,
    entries: &EntryList,
) -> Result<CommandList, NoMemory>
    ensures { IfOk result (λ commands.
        commands ≡ filter_map (command_at_end (clients_in clients.now)) entries.now) }
{
    let ids = clients.registered_ids()?;
    let mut commands = CommandList::new(alloc);
    for entry in entries.as_slice() {
        if let Some(command) = last_command(alloc, &ids, entry)? {
            commands.push(command)?;
        }
    }
    Ok(commands)
}
