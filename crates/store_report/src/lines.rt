ghost use Rattle.std.specs.Prelude.{◌≡◌, ◌++◌, ◌∷◌, [], IfOk, OnOk, codes, decimal, length, option_copied};
ghost use Rattle.std.specs.List.{flat_map};
ghost use Rattle.restart_plan.specs.Restarts.{opening_restarts};
ghost use Rattle.xsmp_properties.specs.Readers.{command_of as command_in};
ghost use Rattle.store_report.specs.Lines.{book_lines, command_line, counts_line, entry_lines, finding_lines, hint_text, living_line, named_line, other_lines, program_in, program_line, program_of, report_lines};

use crate::refusals::put_refusal;
use crate::{Finding, Refusal};
use checkpoint_records::{Book, Entry, Named};
use owned_lists::{Command, NoMemory, Octets};
use restart_plan::plan;
use shown_text::put_words;
use std::alloc::Global;
use std::slice;
use xsmp_properties::{Hint, PropertyTable, command_of, hint_of};

/// A hint as XSMP names it, without `Restart` in front.
pub(crate) fn hint_text(hint: Hint) -> &'static str
    ensures { result.now ≡ hint_text hint }
{
    match hint {
        Hint::IfRunning => "IfRunning",
        Hint::Anyway => "Anyway",
        Hint::Immediately => "Immediately",
        Hint::Never => "Never",
    }
}

fn program_in(values: &[Octets]) -> Option<&Octets>
    ensures { option_copied result ≡ program_in values.now }
{
    match values {
        [program] => Some(program),
        _ => None,
    }
}

/// The program as which a client shows itself.
pub(crate) fn program_of(table: &PropertyTable) -> Option<&Octets>
    ensures { option_copied result ≡ program_of table.now }
{
    let property = table.get(b"Program")?;
    if property.kind.as_slice() == b"ARRAY8".as_slice() {
        program_in(property.values.as_slice())
    } else {
        None
    }
}

/// Appends a line: a name, and words behind it.
pub(crate) fn put_line(
    alloc: Global,
    out: &mut Octets,
    name: &[u8],
    words: &[Octets],
) -> Result<(), NoMemory>
    ensures { OnOk result (out.new ≡ out.old ++ named_line name.now words.now) }
{
    out.append(name)?;
    put_words(alloc, out, words)?;
    out.append(b"\n")
}

fn put_program(alloc: Global, out: &mut Octets, program: Option<&Octets>) -> Result<(), NoMemory>
    ensures { OnOk result (out.new ≡ out.old ++ program_line (option_copied program.entry)) }
{
    match program {
        Some(program) => put_line(alloc, out, b"  program", slice::from_ref(program)),
        None => Ok(()),
    }
}

fn put_hint(alloc: Global, out: &mut Octets, hint: Hint) -> Result<(), NoMemory>
    ensures { OnOk result (out.new ≡ out.old ++ named_line (codes "  hint") (hint_text hint ∷ [])) }
{
    let text = Octets::from_slice(alloc, hint_text(hint).as_bytes())?;
    put_line(alloc, out, b"  hint", slice::from_ref(&text))
}

/// Appends the line of the command that stands under a property's name.
fn put_command(
    alloc: Global,
    out: &mut Octets,
    name: &[u8],
    table: &PropertyTable,
    property: &[u8],
) -> Result<(), NoMemory>
    ensures { OnOk result
        (out.new ≡ out.old ++ command_line name.now (command_in property.now table.now)) }
{
    match command_of(alloc, table, property)? {
        Some(command) => put_line(alloc, out, name, command.words.as_slice()),
        None => Ok(()),
    }
}

fn put_entry(alloc: Global, out: &mut Octets, entry: &Entry) -> Result<(), NoMemory>
    ensures { OnOk result (out.new ≡ out.old ++ entry_lines entry.now) }
{
    put_line(alloc, out, b"entry", slice::from_ref(&entry.id))?;
    put_program(alloc, out, program_of(&entry.table))?;
    put_hint(alloc, out, hint_of(&entry.table))?;
    put_command(alloc, out, b"  restart", &entry.table, b"RestartCommand")?;
    put_command(alloc, out, b"  discard", &entry.table, b"DiscardCommand")
}

fn put_entries(alloc: Global, out: &mut Octets, entries: &[Entry]) -> Result<(), NoMemory>
    ensures { OnOk result (out.new ≡ out.old ++ flat_map entry_lines entries.now) }
{
    for entry in entries {
        put_entry(alloc, out, entry)?;
    }
    Ok(())
}

/// Appends the lines of another session than the chosen one.
fn put_other(alloc: Global, out: &mut Octets, session: &Named) -> Result<(), NoMemory>
    ensures { OnOk result (out.new ≡ out.old ++ other_lines session.now) }
{
    put_line(alloc, out, b"session", slice::from_ref(&session.name))?;
    put_entries(alloc, out, session.entries.as_slice())
}

fn put_others(alloc: Global, out: &mut Octets, others: &[Named]) -> Result<(), NoMemory>
    ensures { OnOk result (out.new ≡ out.old ++ flat_map other_lines others.now) }
{
    for session in others {
        put_other(alloc, out, session)?;
    }
    Ok(())
}

fn put_pending(alloc: Global, out: &mut Octets, pending: &[Command]) -> Result<(), NoMemory>
    ensures { OnOk result (out.new ≡ out.old ++ flat_map (λ command.
        named_line (codes "pending") command.words) pending.now) }
{
    for command in pending {
        put_line(alloc, out, b"pending", command.words.as_slice())?;
    }
    Ok(())
}

/// Appends a text and a number.
fn put_number(alloc: Global, out: &mut Octets, text: &[u8], number: u64) -> Result<(), NoMemory>
    ensures { OnOk result (out.new ≡ out.old ++ text.now ++ decimal number) }
{
    let digits = number.to_string(alloc)?;
    out.append(text)?;
    out.append(digits.as_bytes())
}

/// How many programs a login starts over this book.
pub(crate) fn starts_of(alloc: Global, book: &Book) -> Result<u64, NoMemory>
    ensures { IfOk result (λ count. count ≡ length (opening_restarts book.now.entries)) }
{
    let commands = plan(alloc, book)?;
    Ok(commands.as_slice().len() as u64)
}

/// The line of a book's counts.
#[tactic(auto, unfolding(crate::specs::Lines::counts_line))]
fn counts_of(alloc: Global, book: &Book) -> Result<Octets, NoMemory>
    ensures { IfOk result (λ line. line ≡ counts_line book.now) }
{
    let starts = starts_of(alloc, book)?;
    let mut line = Octets::new(alloc);
    put_number(alloc, &mut line, b"store opens: epoch ", book.epoch.into())?;
    put_number(
        alloc,
        &mut line,
        b", entries ",
        book.entries.as_slice().len() as u64,
    )?;
    put_number(alloc, &mut line, b", starts ", starts)?;
    put_number(
        alloc,
        &mut line,
        b", pending ",
        book.pending.as_slice().len() as u64,
    )?;
    line.append(b"\n")?;
    Ok(line)
}

fn put_book(alloc: Global, out: &mut Octets, book: &Book) -> Result<(), NoMemory>
    ensures { OnOk result (out.new ≡ out.old ++ book_lines book.now) }
{
    let counts = counts_of(alloc, book)?;
    out.append(counts.as_slice())?;
    put_entries(alloc, out, book.entries.as_slice())?;
    put_others(alloc, out, book.others.as_slice())?;
    put_pending(alloc, out, book.pending.as_slice())
}

pub(crate) fn put_finding(
    alloc: Global,
    out: &mut Octets,
    finding: &Finding,
) -> Result<(), NoMemory>
    ensures { OnOk result (out.new ≡ out.old ++ finding_lines finding.now) }
{
    match finding {
        Finding::Opens(book) => put_book(alloc, out, book),
        Finding::Damaged(at) => {
            put_number(alloc, out, b"smd: store damaged at ", *at)?;
            out.append(b"\n")
        }
        Finding::WrongSize(size) => {
            put_number(alloc, out, b"smd: store has size ", *size)?;
            out.append(b"\n")
        }
    }
}

/// Appends the line of a store that a manager has.
pub(crate) fn put_living(out: &mut Octets, is_living: bool) -> Result<(), NoMemory>
    ensures { OnOk result (out.new ≡ out.old ++ living_line is_living) }
{
    if is_living {
        out.append(b"store in use: a copy of a living store\n")?;
    }
    Ok(())
}

/// What was found in a store, line by line: its counts, what is kept of each client of the session
/// `default`, the other sessions with what is kept of theirs, and the commands that are pending.
/// `is_living` tells that a manager has the store. Where a session over it is refused, that comes first.
pub fn report_lines(
    alloc: Global,
    finding: &Finding,
    is_living: bool,
    refused: Option<Refusal>,
) -> Result<Octets, NoMemory>
    ensures { IfOk result (λ text. text ≡ report_lines is_living refused finding.now) }
{
    let mut out = Octets::new(alloc);
    put_living(&mut out, is_living)?;
    put_refusal(&mut out, refused)?;
    put_finding(alloc, &mut out, finding)?;
    Ok(out)
}
