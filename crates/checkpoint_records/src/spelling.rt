ghost use Rattle.std.specs.Prelude.{◌≡◌, ◌++◌, [], flat_map, IfOk, OnOk};
ghost use Rattle.std.specs.List.{AllByRecursion};
ghost use Rattle.ice_values.specs.Cells.{zeros};
ghost use Rattle.ice_values.specs.Properties.{IsArray8};
ghost use Rattle.ice_values.specs.declared.numbers.Endian.TheVariants.{Lsb};
ghost use Rattle.checkpoint_records.specs.Books.{default_name, stored};
ghost use Rattle.checkpoint_records.specs.Rules.{KeepsRules, command_cells, in_turn};
ghost use Rattle.checkpoint_records.specs.Parts.{HasEntrySpelling, HasSessionSpelling, HasCommandSpelling};
ghost use Rattle.checkpoint_records.specs.Spelling.{head_cells, entry_cells, part_cells, session_parts, book_bytes};
ghost use Rattle.checkpoint_records.specs.declared.head.Format.TheVariants.{Several};

use crate::counts::count_sessions;
use crate::head::{Format, Head};
use crate::sessions::place_among;
use crate::{Book, Entry, Named};
use ice_values::{Endian, Spelled, put_card32};
use owned_lists::{Command, Duplicate, NoMemory, Octets, OctetsList};
use std::alloc::Global;

fn put_head(head: Head, out: &mut Octets) -> Result<(), NoMemory>
    ensures { OnOk result (out.new ≡ out.old ++ zeros (head_cells head)) }
{
    put_card32(Endian::Lsb, head.format.number(), out)?;
    put_card32(Endian::Lsb, head.epoch, out)?;
    put_card32(Endian::Lsb, head.count, out)?;
    put_card32(Endian::Lsb, head.pending, out)
}

/// Adds the bytes of an entry.
pub fn put_entry(entry: &Entry, out: &mut Octets) -> Result<(), NoMemory>
    requires { HasEntrySpelling entry.now }
    ensures { OnOk result (out.new ≡ out.old ++ zeros (entry_cells entry.now)) }
{
    entry.id.put(Endian::Lsb, out)?;
    let properties = entry.table.list()?;
    properties.put(Endian::Lsb, out)
}

fn put_entries(entries: &[Entry], out: &mut Octets) -> Result<(), NoMemory>
    requires { AllByRecursion HasEntrySpelling entries.now }
    ensures { OnOk result (out.new ≡ out.old ++ zeros (flat_map entry_cells entries.now)) }
{
    for entry in entries {
        put_entry(entry, out)?;
    }
    Ok(())
}

/// Adds the bytes of a session: its name, how many entries it has, four unused bytes, and the
/// entries.
fn put_session(name: &Octets, entries: &[Entry], out: &mut Octets) -> Result<(), NoMemory>
    requires { HasSessionSpelling (record { name = name.now; entries = entries.now }) }
    ensures { OnOk result
        (out.new ≡ out.old ++ zeros
        (flat_map part_cells
        (session_parts Several (record { name = name.now; entries = entries.now })))) }
{
    name.put(Endian::Lsb, out)?;
    put_card32(Endian::Lsb, entries.len() as u32, out)?;
    put_card32(Endian::Lsb, 0, out)?;
    put_entries(entries, out)
}

fn put_sessions(sessions: &[Named], out: &mut Octets) -> Result<(), NoMemory>
    requires { AllByRecursion HasSessionSpelling sessions.now }
    ensures { OnOk result
        (out.new ≡ out.old ++ zeros (flat_map (λ session.
        flat_map part_cells (session_parts Several session)) sessions.now)) }
{
    for session in sessions {
        put_session(&session.name, session.entries.as_slice(), out)?;
    }
    Ok(())
}

/// Copies of names and values in turn.
fn in_turn(alloc: Global, pairs: &[(Octets, Octets)]) -> Result<OctetsList, NoMemory>
    ensures { IfOk result (λ values. values ≡ in_turn pairs.now) }
{
    let mut values = OctetsList::new(alloc);
    for (name, value) in pairs {
        values.push(name.copy()?)?;
        values.push(value.copy()?)?;
    }
    Ok(values)
}

/// Adds the bytes of a command.
pub fn put_command(alloc: Global, command: &Command, out: &mut Octets) -> Result<(), NoMemory>
    requires { HasCommandSpelling command.now }
    ensures { OnOk result (out.new ≡ out.old ++ zeros (command_cells Lsb command.now)) }
{
    let environment = in_turn(alloc, command.environment.as_slice())?;
    command.words.put(Endian::Lsb, out)?;
    command.directory.put(Endian::Lsb, out)?;
    environment.put(Endian::Lsb, out)
}

fn put_commands(alloc: Global, commands: &[Command], out: &mut Octets) -> Result<(), NoMemory>
    requires { AllByRecursion HasCommandSpelling commands.now }
    ensures { OnOk result (out.new ≡ out.old ++ zeros (flat_map (command_cells Lsb) commands.now)) }
{
    for command in commands {
        put_command(alloc, command, out)?;
    }
    Ok(())
}

/// Adds the bytes of all sessions of a book, in the order of their names.
fn put_all_sessions(book: &Book, out: &mut Octets) -> Result<(), NoMemory>
    requires chosen { AllByRecursion HasSessionSpelling (stored book.now.name book.now.entries []) }
    requires others { AllByRecursion HasSessionSpelling book.now.others }
    ensures { OnOk result
        (out.new ≡ out.old ++ zeros (flat_map (λ session.
        flat_map part_cells (session_parts Several session))
        (stored book.now.name book.now.entries book.now.others))) }
{
    let entries = book.entries.as_slice();
    if entries.is_empty() {
        return put_sessions(book.others.as_slice(), out);
    }
    let others = book.others.as_slice();
    let (before, behind) = others.split_at(place_among(others, book.name.as_slice()));
    put_sessions(before, out)?;
    put_session(&book.name, entries, out)?;
    put_sessions(behind, out)
}

/// The bytes of a book in which `default` is chosen. All numbers are CARD32 with the least
/// significant byte first: the format, which is 2, the epoch, how many sessions have entries and how
/// many pending commands there are. Then come the sessions in the order of their names, each an
/// ARRAY8 with the name, how many entries it has, four unused bytes, and the entries, each an ARRAY8
/// with the ID and a LISTofPROPERTY; and then the pending commands, each a LISTofARRAY8 of words, an
/// ARRAY8 with the directory and a LISTofARRAY8 of names and values in turn (XSMP, chapter 10).
/// Unused bytes and padding are zero.
pub fn spell_book(alloc: Global, book: &Book) -> Result<Octets, NoMemory>
    requires rules { KeepsRules book.now }
    requires chosen { book.now.name ≡ default_name }
    ensures { IfOk result (λ octets. octets ≡ book_bytes book.now) }
{
    let pending = book.pending.as_slice();
    let head = Head {
        format: Format::Several,
        epoch: book.epoch,
        count: count_sessions(book) as u32,
        pending: pending.len() as u32,
    };
    let mut out = Octets::new(alloc);
    put_head(head, &mut out)?;
    put_all_sessions(book, &mut out)?;
    put_commands(alloc, pending, &mut out)?;
    Ok(out)
}
