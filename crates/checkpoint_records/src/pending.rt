ghost use Rattle.std.specs.Prelude.{◌≡◌, ◌∷◌, ◌++◌, ◌≤◌, [], ℕ, length, IfOk, IfErr, IfSome, IfNone, OnOk};
ghost use Rattle.std.specs.List.{list_any};
ghost use Rattle.std.specs.Option.{option_map};
ghost use Rattle.ice_values.specs.Cells.{zeros};
ghost use Rattle.ice_values.specs.Properties.{array8, IsArray8, array8_list, IsListed};
ghost use Rattle.ice_values.specs.declared.numbers.Endian.TheVariants.{Lsb};
ghost use Rattle.checkpoint_records.specs.Books.{same_command as is_same, all_entries, discards, entries_in};
ghost use Rattle.checkpoint_records.specs.Finding.{Finds, AreInFront, IsStuck, EndsEarly, IsStop};
ghost use Rattle.checkpoint_records.specs.Fields.{fields_cells, HaveFieldSpelling, are_of_command};
ghost use Rattle.checkpoint_records.specs.Parts.{ArePending};
ghost use Rattle.checkpoint_records.specs.Rules.{IsCommand, command_cells};

use crate::stops::Stop;
use crate::zeroed::take_zeroed;
use crate::{Book, Entry, Named, same_command};
use ice_values::{Array8, Array8List};
use owned_lists::{Command, CommandList, NoMemory};
use std::alloc::Global;
use xsmp_properties::{are_words, command_of, in_pairs, is_environment, is_text};

const BYTE_LIMIT: usize = 16_384;

/// The ARRAY8 at the front, and what follows it. None where there is none, or one of more than
/// 65,536 bytes.
pub(crate) fn take_text(alloc: Global, bytes: &[u8]) -> Result<Option<(Array8, &[u8])>, NoMemory>
    ensures { IfOk result (λ found.
        Finds (λ text. zeros (array8 Lsb text)) (λ text.
        IsArray8 text × (length (array8 Lsb text) ≤ 65536)) bytes.now
        (option_map (λ x. (x.0, x.1.now)) found)) }
{
    take_zeroed(alloc, bytes)
}

fn take_list(alloc: Global, bytes: &[u8]) -> Result<Option<(Array8List, &[u8])>, NoMemory>
    ensures { IfOk result (λ found.
        Finds (λ list. zeros (array8_list Lsb list)) (λ list.
        IsListed IsArray8 list × (length (array8_list Lsb list) ≤ 65536)) bytes.now
        (option_map (λ x. (x.0, x.1.now)) found)) }
{
    take_zeroed(alloc, bytes)
}

/// What stands in the bytes of a command.
#[derive(Drop)]
struct CommandFields {
    words: Array8List,
    directory: Array8,
    /// Names and values in turn.
    environment: Array8List,
}

/// The fields at the front of the bytes, and what follows them.
fn take_fields(alloc: Global, bytes: &[u8]) -> Result<Option<(CommandFields, &[u8])>, NoMemory>
    ensures { IfOk result (λ found.
        Finds (λ fields. zeros (fields_cells fields)) HaveFieldSpelling bytes.now
        (option_map (λ x. (x.0, x.1.now)) found)) }
{
    let (words, rest) = match take_list(alloc, bytes)? {
        Some(found) => found,
        None => return Ok(None),
    };
    let (directory, rest) = match take_text(alloc, rest)? {
        Some(found) => found,
        None => return Ok(None),
    };
    let (environment, rest) = match take_list(alloc, rest)? {
        Some(found) => found,
        None => return Ok(None),
    };
    let fields = CommandFields {
        words,
        directory,
        environment,
    };
    Ok(Some((fields, rest)))
}

/// Whether a command has such words, such a directory and such an environment.
fn are_of_command(fields: &CommandFields) -> bool
    ensures { result ≡ are_of_command fields.now }
{
    are_words(fields.words.as_slice())
        && is_text(fields.directory.as_slice())
        && is_environment(fields.environment.as_slice())
}

/// The command at the front of the bytes, and what follows it. None where there is none as a table
/// gives one, or one of more than 16,384 bytes.
pub fn take_command(alloc: Global, bytes: &[u8]) -> Result<Option<(Command, &[u8])>, NoMemory>
    ensures { IfOk result (λ found.
        Finds (λ command. zeros (command_cells Lsb command)) IsCommand bytes.now
        (option_map (λ x. (x.0, x.1.now)) found)) }
{
    let (fields, rest) = match take_fields(alloc, bytes)? {
        Some(found) => found,
        None => return Ok(None),
    };
    if bytes.len() > BYTE_LIMIT + rest.len() {
        return Ok(None);
    }
    if !are_of_command(&fields) {
        return Ok(None);
    }
    let environment = in_pairs(alloc, fields.environment.as_slice())?;
    let command = Command {
        words: fields.words,
        directory: fields.directory,
        environment,
    };
    Ok(Some((command, rest)))
}

/// Adds the DiscardCommands of entries, in order.
fn add_discards(
    alloc: Global,
    entries: &[Entry],
    commands: &mut CommandList,
) -> Result<(), NoMemory>
    ensures { OnOk result (commands.new ≡ commands.old ++ discards entries.now) }
{
    for entry in entries {
        if let Some(discard) = command_of(alloc, &entry.table, b"DiscardCommand")? {
            commands.push(discard)?;
        }
    }
    Ok(())
}

/// The DiscardCommands of entries, in order.
pub fn discards_of(alloc: Global, entries: &[Entry]) -> Result<CommandList, NoMemory>
    ensures { IfOk result (λ commands. commands ≡ discards entries.now) }
{
    let mut commands = CommandList::new(alloc);
    add_discards(alloc, entries, &mut commands)?;
    Ok(commands)
}

/// The DiscardCommands of all entries of a book, those of the chosen session first.
pub fn all_discards(alloc: Global, book: &Book) -> Result<CommandList, NoMemory>
    ensures { IfOk result (λ commands. commands ≡ discards (all_entries book.now)) }
{
    let mut commands = CommandList::new(alloc);
    add_discards(alloc, book.entries.as_slice(), &mut commands)?;
    for other in book.others.as_slice() {
        add_discards(alloc, other.entries.as_slice(), &mut commands)?;
    }
    Ok(commands)
}

/// Whether this command is the same as one of these.
pub fn is_named(commands: &[Command], command: &Command) -> bool
    ensures { result ≡ list_any (is_same command.now) commands.now }
{
    commands.iter().any(|other| same_command(command, other))
}

/// Whether one of the commands is the same as this one.
fn is_among(commands: &[Command], command: &Command) -> bool
    ensures { result ≡ list_any (λ other. is_same other command.now) commands.now }
{
    commands.iter().any(|other| same_command(other, command))
}

/// The command that stands behind others, and what follows it.
fn take_next<'a>(
    alloc: Global,
    discards: &[Command],
    before: &[Command],
    bytes: &'a [u8],
) -> Result<(Command, &'a [u8]), Stop>
    requires { ArePending discards.now before.now }
    ensures next { IfOk result (λ x. ArePending discards.now (before.now ++ x.0 ∷ [])
        × (bytes.now ≡ zeros (command_cells Lsb x.0) ++ x.1.now)) }
    ensures stop { IfErr result (λ stop.
        IsStop bytes.now (λ left. (left ≡ length bytes.now)
        × IsStuck (command_cells Lsb) (ArePending discards.now) before.now bytes.now) stop) }
{
    let left = bytes.len();
    match take_command(alloc, bytes)? {
        Some((command, rest)) => {
            if is_among(before, &command) {
                return Err(Stop::Broken { left });
            }
            if is_named(discards, &command) {
                return Err(Stop::Broken { left });
            }
            Ok((command, rest))
        }
        None => Err(Stop::Broken { left }),
    }
}

fn take_beside<'a>(
    alloc: Global,
    discards: &[Command],
    count: u32,
    bytes: &'a [u8],
) -> Result<(CommandList, &'a [u8]), Stop>
    ensures all { IfOk result (λ x.
        AreInFront (command_cells Lsb) (ArePending discards.now) bytes.now x.0 x.1.now
        × (length x.0 ≡ count)) }
    ensures early { IfErr result (λ stop.
        IsStop bytes.now (EndsEarly (command_cells Lsb) (ArePending discards.now) bytes.now count)
        stop) }
{
    let mut pending = CommandList::new(alloc);
    let mut rest = bytes;
    for _i in 0..count {
        match take_next(alloc, discards, pending.as_slice(), rest) {
            Ok((command, after)) => {
                pending.push(command)?;
                rest = after;
            }
            Err(stop) => return Err(stop),
        }
    }
    Ok((pending, rest))
}

/// The DiscardCommands of all entries of sessions, in order.
fn discards_in(alloc: Global, sessions: &[Named]) -> Result<CommandList, NoMemory>
    ensures { IfOk result (λ commands. commands ≡ discards (entries_in sessions.now)) }
{
    let mut commands = CommandList::new(alloc);
    for session in sessions {
        add_discards(alloc, session.entries.as_slice(), &mut commands)?;
    }
    Ok(commands)
}

/// So many pending commands at the front, beside these sessions, and what follows them.
pub(crate) fn take_pending<'a>(
    alloc: Global,
    sessions: &[Named],
    count: u32,
    bytes: &'a [u8],
) -> Result<(CommandList, &'a [u8]), Stop>
    ensures all { IfOk result (λ x.
        AreInFront (command_cells Lsb) (ArePending (discards (entries_in sessions.now))) bytes.now
        x.0 x.1.now × (length x.0 ≡ count)) }
    ensures early { IfErr result (λ stop.
        IsStop bytes.now (EndsEarly (command_cells Lsb)
        (ArePending (discards (entries_in sessions.now))) bytes.now count) stop) }
{
    let discards = discards_in(alloc, sessions)?;
    take_beside(alloc, discards.as_slice(), count, bytes)
}
