ghost use Rattle.std.specs.Prelude.{◌≡◌, ◌++◌, map, IfOk, OnOk};
ghost use Rattle.std.specs.List.{flat_map};
ghost use Rattle.checkpoint_records.specs.Books.{sessions};
ghost use Rattle.restart_plan.specs.Restarts.{opening_restarts};
ghost use Rattle.store_report.specs.Sessions.{program_started, programs_started, session_line, session_words, sessions_found, sessions_lines};

use crate::Finding;
use crate::lines::{put_finding, put_line, put_living};
use checkpoint_records::{Book, Named, NamedList, stored};
use owned_lists::{Command, CommandList, Duplicate, NoMemory, Octets, OctetsList};
use restart_plan::plan;
use std::alloc::Global;

/// The program that a command starts.
fn program_started(alloc: Global, command: &Command) -> Result<Octets, NoMemory>
    ensures { IfOk result (λ program. program ≡ program_started command.now) }
{
    match command.words.as_slice().first() {
        Some(program) => program.copy(),
        None => Ok(Octets::new(alloc)),
    }
}

/// The commands that a login starts over the entries of a session.
fn commands_started(alloc: Global, session: &Named) -> Result<CommandList, NoMemory>
    ensures { IfOk result (λ commands. commands ≡ opening_restarts session.now.entries) }
{
    let alone = Book {
        entries: session.entries.copy()?,
        pending: CommandList::new(alloc),
        epoch: 0,
        name: session.name.copy()?,
        others: NamedList::new(alloc),
    };
    plan(alloc, &alone)
}

/// Appends the programs that these commands start.
fn push_programs(
    alloc: Global,
    words: &mut OctetsList,
    commands: &[Command],
) -> Result<(), NoMemory>
    ensures { OnOk result (words.new ≡ words.old ++ map program_started commands.now) }
{
    for command in commands {
        words.push(program_started(alloc, command)?)?;
    }
    Ok(())
}

/// What is told of a session: its name, how many entries it has, and the programs that its login
/// starts.
fn session_words(alloc: Global, session: &Named) -> Result<OctetsList, NoMemory>
    ensures { IfOk result (λ words. words ≡ session_words session.now) }
{
    let commands = commands_started(alloc, session)?;
    let count = session.entries.as_slice().len() as u64;
    let digits = count.to_string(alloc)?;
    let mut words = OctetsList::new(alloc);
    words.push(session.name.copy()?)?;
    words.push(Octets::from_slice(alloc, b"entries")?)?;
    words.push(Octets::from_slice(alloc, digits.as_bytes())?)?;
    words.push(Octets::from_slice(alloc, b"starts")?)?;
    push_programs(alloc, &mut words, commands.as_slice())?;
    Ok(words)
}

fn put_session(alloc: Global, out: &mut Octets, session: &Named) -> Result<(), NoMemory>
    ensures { OnOk result (out.new ≡ out.old ++ session_line session.now) }
{
    let words = session_words(alloc, session)?;
    put_line(alloc, out, b"session", words.as_slice())
}

fn put_sessions(alloc: Global, out: &mut Octets, all: &[Named]) -> Result<(), NoMemory>
    ensures { OnOk result (out.new ≡ out.old ++ flat_map session_line all.now) }
{
    for session in all {
        put_session(alloc, out, session)?;
    }
    Ok(())
}

/// All sessions of a book, in the order of their names.
fn sessions_of(book: &Book) -> Result<NamedList, NoMemory>
    ensures { IfOk result (λ all. all ≡ sessions book.now) }
{
    let name = book.name.copy()?;
    let entries = book.entries.copy()?;
    let others = book.others.copy()?;
    stored(name, entries, others)
}

fn put_found(alloc: Global, out: &mut Octets, finding: &Finding) -> Result<(), NoMemory>
    ensures { OnOk result (out.new ≡ out.old ++ sessions_found finding.now) }
{
    match finding {
        Finding::Opens(book) => {
            let all = sessions_of(book)?;
            put_sessions(alloc, out, all.as_slice())
        }
        Finding::Damaged(_) => put_finding(alloc, out, finding),
        Finding::WrongSize(_) => put_finding(alloc, out, finding),
    }
}

/// The sessions of a store, a line each: `session`, the name, `entries` and how many there are, and
/// behind `starts` the programs that a login to the session starts. A store that doesn't open has the
/// line of a session that doesn't start. `is_living` tells that a manager has the store.
pub fn sessions_report(
    alloc: Global,
    finding: &Finding,
    is_living: bool,
) -> Result<Octets, NoMemory>
    ensures { IfOk result (λ text. text ≡ sessions_lines is_living finding.now) }
{
    let mut out = Octets::new(alloc);
    put_living(&mut out, is_living)?;
    put_found(alloc, &mut out, finding)?;
    Ok(out)
}
