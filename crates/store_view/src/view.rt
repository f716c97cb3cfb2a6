ghost use Rattle.std.specs.Prelude.{IfOk};
ghost use Rattle.checkpoint_records.specs.Rules.{KeepsRules};

use checkpoint_records::Book;
use checkpoint_slots::STORE_BYTES;
use owned_lists::{NoMemory, Octets};
use program_frame::StandardConsole;
use sm_world::{Console, Failure};
use std::fs::{File, OpenOptions, TryLockError};
use std::io::ErrorKind;
use std::os::unix::fs::FileExt;
use std::{fs, io};
use store_file::check_file;
use store_report::{
    Check, Finding, Refusal, look_into, report_json, report_lines, sessions_report,
};
use store_return::{BOOK_LIMIT, Fault, read_kept};

/// How often the store of a living manager is read again until it stays as it was read.
const TRIES: u32 = 20;

/// What is printed of a store, and the status.
#[derive(Drop)]
struct Report {
    text: Octets,
    status: u8,
}

/// What a file has: all its bytes, or another size than is wanted.
#[derive(Drop)]
enum Contents {
    Whole(Vec<u8>),
    OtherSize(u64),
}

/// A file as it was read.
#[derive(Drop)]
struct Reading {
    contents: Contents,
    /// Whether a manager has the store.
    is_living: bool,
    /// Why no manager of this user would take the file.
    fault: Option<io::Error>,
}

/// Opens a file for reading. What isn't a file is refused, since its opening may wait.
fn open_file(rt: HostRuntime, path: &str) -> io::Result<File> {
    if !fs::metadata(&rt, path)?.is_file() {
        return Err(io::Error::new(ErrorKind::InvalidInput, "it is no file"));
    }
    let mut how = OpenOptions::new();
    how.read(true);
    how.open(&rt, path)
}

/// Whether a manager has the store. Where none has it, this lock keeps one from taking it until the
/// file is closed; a manager that starts meanwhile waits.
fn is_living(file: &File) -> io::Result<bool> {
    match file.try_lock_shared() {
        Ok(()) => Ok(false),
        Err(TryLockError::WouldBlock) => Ok(true),
        Err(TryLockError::Error(error)) => Err(error),
    }
}

fn read_whole(rt: HostRuntime, file: &File) -> io::Result<Vec<u8>> {
    let mut bytes = vec![in rt.alloc(); 0u8; STORE_BYTES as usize]?;
    file.read_exact_at(bytes.as_mut_slice(), 0)?;
    Ok(bytes)
}

/// The bytes of a store that a manager may write meanwhile: read until two reads are equal, or
/// else the last of them.
fn read_settled(rt: HostRuntime, file: &File) -> io::Result<Vec<u8>> {
    let mut bytes = read_whole(rt, file)?;
    for _ in 0..TRIES {
        let again = read_whole(rt, file)?;
        if again.as_slice() == bytes.as_slice() {
            break;
        }
        bytes = again;
    }
    Ok(bytes)
}

/// Reads the file, and lets it go.
fn read_store(rt: HostRuntime, path: &str) -> io::Result<Reading> {
    let file = open_file(rt, path)?;
    let is_living = is_living(&file)?;
    let found = file.metadata()?;
    let fault = check_file(rt, path, &found, STORE_BYTES).err();
    let size = found.len();
    let contents = if size != STORE_BYTES {
        Contents::OtherSize(size)
    } else if is_living {
        Contents::Whole(read_settled(rt, &file)?)
    } else {
        Contents::Whole(read_whole(rt, &file)?)
    };
    Ok(Reading {
        contents,
        is_living,
        fault,
    })
}

fn no_memory(_error: NoMemory) -> io::Error {
    io::Error::from(ErrorKind::OutOfMemory)
}

/// What a file stands for.
fn find(rt: HostRuntime, contents: Contents) -> Result<Finding, NoMemory> {
    match contents {
        Contents::OtherSize(size) => Ok(Finding::WrongSize(size)),
        Contents::Whole(bytes) => look_into(rt.alloc(), Octets::from_vec(bytes)),
    }
}

fn shown(
    rt: HostRuntime,
    finding: &Finding,
    is_living: bool,
    refused: Option<Refusal>,
    is_json: bool,
) -> Result<Octets, NoMemory> {
    if !is_json {
        return report_lines(rt.alloc(), finding, is_living, refused);
    }
    let mut text = report_json(rt.alloc(), finding, is_living)?;
    text.append(b"\n")?;
    Ok(text)
}

/// Tells the user why a file isn't used.
fn tell(rt: HostRuntime, path: &str, error: io::Error) {
    let _ = eprintln!(rt; "smd: cannot use {path}: {error}");
}

/// Why no session of this name begins over what was found.
fn refusal(
    rt: HostRuntime,
    finding: &Finding,
    session: Option<&str>,
) -> Result<Option<Refusal>, NoMemory> {
    match session {
        Some(name) => {
            let name = Octets::from_slice(rt.alloc(), name.as_bytes())?;
            finding.refusal(rt.alloc(), Some(&name))
        }
        None => finding.refusal(rt.alloc(), None),
    }
}

fn report_on(rt: HostRuntime, check: Check<'_>, session: Option<&str>) -> io::Result<Report> {
    let reading = read_store(rt, check.store)?;
    let (is_living, fault) = (reading.is_living, reading.fault);
    let finding = find(rt, reading.contents).map_err(no_memory)?;
    let refused = match fault {
        Some(error) => {
            tell(rt, check.store, error);
            Some(Refusal::Disk)
        }
        None => refusal(rt, &finding, session).map_err(no_memory)?,
    };
    let status = match refused {
        Some(refusal) => refusal.status(),
        None => finding.status(),
    };
    let text = shown(rt, &finding, is_living, refused, check.is_json).map_err(no_memory)?;
    Ok(Report { text, status })
}

fn sessions_in(rt: HostRuntime, path: &str) -> io::Result<Report> {
    let reading = read_store(rt, path)?;
    let finding = find(rt, reading.contents).map_err(no_memory)?;
    let text = sessions_report(rt.alloc(), &finding, reading.is_living).map_err(no_memory)?;
    Ok(Report {
        text,
        status: finding.status(),
    })
}

/// Prints a text, and gives the status where that succeeds.
fn printed(rt: HostRuntime, text: &[u8], status: u8) -> u8 {
    match StandardConsole::new(rt).print(text) {
        Ok(()) => status,
        Err(Failure::Failed) => 6,
        Err(Failure::NoMemory) => 10,
    }
}

/// Prints a report on the store at a path, and gives the program's status.
fn told(rt: HostRuntime, path: &str, report: io::Result<Report>) -> u8 {
    match report {
        Ok(report) => printed(rt, report.text.as_slice(), report.status),
        Err(error) if error.kind() == ErrorKind::OutOfMemory => {
            printed(rt, b"smd: no memory\n", 10)
        }
        Err(error) => {
            tell(rt, path, error);
            printed(rt, b"smd: disk fault\n", 4)
        }
    }
}

/// Prints what a session of this name is answered over a store, and what stands in it. The answer is the
/// program's status: that of such a session, and 0 where it begins. Without a name it is one of those
/// that the store has.
pub fn check_store(rt: HostRuntime, check: Check<'_>, session: Option<&str>) -> u8 {
    let report = report_on(rt, check, session);
    told(rt, check.store, report)
}

/// Prints the sessions of a store, a line each, and gives the same status.
pub fn list_sessions(rt: HostRuntime, store: &str) -> u8 {
    let report = sessions_in(rt, store);
    told(rt, store, report)
}

/// The bytes of a file in which a book was kept, or its size, where that is neither a store's nor a
/// book's. The file must be that of who runs this, since the commands in it are to be started.
fn read_file(rt: HostRuntime, path: &str) -> io::Result<Contents> {
    let file = open_file(rt, path)?;
    let found = file.metadata()?;
    let size = found.len();
    check_file(rt, path, &found, size)?;
    if size != STORE_BYTES && size > BOOK_LIMIT {
        return Ok(Contents::OtherSize(size));
    }
    let mut bytes = vec![in rt.alloc(); 0u8; size as usize]?;
    file.read_exact_at(bytes.as_mut_slice(), 0)?;
    Ok(Contents::Whole(bytes))
}

/// The book that was kept in a file, which is let go. The user is told why a file can't be read.
pub fn kept_book(rt: HostRuntime, path: &str) -> Result<Book, Fault>
    ensures rules { IfOk result KeepsRules }
{
    match read_file(rt, path) {
        Ok(Contents::Whole(bytes)) => read_kept(rt.alloc(), Octets::from_vec(bytes)),
        Ok(Contents::OtherSize(size)) => Err(Fault::KeptSize(size)),
        Err(error) if error.kind() == ErrorKind::OutOfMemory => Err(Fault::NoMemory),
        Err(error) => {
            tell(rt, path, error);
            Err(Fault::Disk)
        }
    }
}

/// The book of a store, which a manager may have, as it is now. It is the empty one where there is no store,
/// or one that doesn't open.
pub fn present_book(rt: HostRuntime, path: &str) -> io::Result<Book> {
    let reading = match read_store(rt, path) {
        Ok(reading) => reading,
        Err(error) if error.kind() == ErrorKind::NotFound => {
            return Book::empty(rt.alloc()).map_err(no_memory);
        }
        Err(error) => return Err(error),
    };
    match find(rt, reading.contents).map_err(no_memory)? {
        Finding::Opens(book) => Ok(book),
        Finding::Damaged(_) => Book::empty(rt.alloc()).map_err(no_memory),
        Finding::WrongSize(_) => Book::empty(rt.alloc()).map_err(no_memory),
    }
}
