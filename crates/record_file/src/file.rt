ghost use Rattle.std.specs.Prelude.{◌≡◌, false, None};

use session_recorder::KeptLines;
use sm_world::Failed;
use std::fs::{File, OpenOptions};
use std::io::{ErrorKind, Write};
use std::os::unix::fs::{FileExt, OpenOptionsExt};
use std::{fs, io};

/// The mode of a file that is its owner's alone.
const PRIVATE: u32 = 0o600;

/// How long the line of a cookie is, with which each record begins: the word, a blank, 16 bytes in hex
/// and a newline.
const FRONT: usize = 40;

/// A file that takes the lines of a record as they come. What it holds is told to nobody.
#[derive(Drop)]
pub struct RecordFile {
    rt: HostRuntime,
    path: String,
    /// None where the file couldn't be made.
    file: Option<File>,
    /// Why nothing more is kept, where the system said so.
    fault: Option<io::Error>,
    /// Whether all that was to be kept first is there.
    has_front: bool,
    is_refused: bool,
    is_lost: bool,
}

/// Whether this is the line of a cookie.
fn is_front(line: &[u8; FRONT]) -> bool {
    line.starts_with(b"cookie ")
        && line.ends_with(b"\n")
        && line[7..39].iter().all(|digit| digit.is_ascii_hexdigit())
}

/// Whether a file begins as a record does.
fn begins_as_record(file: &File) -> io::Result<bool> {
    let mut front = [0u8; FRONT];
    match file.read_exact_at(&mut front, 0) {
        Ok(()) => Ok(is_front(&front)),
        Err(error) if error.kind() == ErrorKind::UnexpectedEof => Ok(false),
        Err(error) => Err(error),
    }
}

/// Why a file stays that lies where the record would.
fn stays(why: &str) -> io::Error {
    io::Error::new(ErrorKind::AlreadyExists, why)
}

/// Removes a plain file that is a record, and that nobody writes any more.
fn remove_old(rt: HostRuntime, path: &str) -> io::Result<()> {
    let old = fs::open(&rt, path)?;
    if !begins_as_record(&old)? {
        return Err(stays("what lies there is no record"));
    }
    if old.try_lock().is_err() {
        return Err(stays("another session is recorded there"));
    }
    fs::remove_file(&rt, path)
}

/// Makes way for a record. What is no plain file isn't opened, since that may wait or do something.
fn make_way(rt: HostRuntime, path: &str) -> io::Result<()> {
    match fs::symlink_metadata(&rt, path) {
        Ok(found) if found.is_file() => remove_old(rt, path),
        Ok(_) => Err(stays("what lies there is no plain file")),
        Err(error) if error.kind() == ErrorKind::NotFound => Ok(()),
        Err(error) => Err(error),
    }
}

/// Makes a file that is its owner's alone, in place of an old record. It is locked as long as it is
/// written.
fn create(rt: HostRuntime, path: &str) -> io::Result<File> {
    make_way(rt, path)?;
    let mut how = OpenOptions::new();
    how.write(true).create_new(true);
    how.mode(PRIVATE);
    let file = how.open(&rt, path)?;
    let _ = file.try_lock();
    Ok(file)
}

impl RecordFile {
    /// A new file at this path, which only its user can read. An old record makes way for it, and any
    /// other file stays as it is.
    pub fn create(rt: HostRuntime, path: String) -> RecordFile
        ensures refused { result.is_refused ≡ false }
        ensures lost { result.is_lost ≡ false }
    {
        let (file, fault) = match create(rt, path.as_str()) {
            Ok(file) => (Some(file), None),
            Err(error) => (None, Some(error)),
        };
        RecordFile {
            rt,
            path,
            file,
            fault,
            has_front: false,
            is_refused: false,
            is_lost: false,
        }
    }

    /// Notes why nothing more is kept. A file without its beginning would be no record, and in the way
    /// of the next one.
    fn lose(&mut self, error: io::Error)
        ensures refused { self.new.is_refused ≡ self.old.is_refused }
        ensures lost { self.new.is_lost ≡ self.old.is_lost }
    {
        if !self.has_front {
            let _ = fs::remove_file(&self.rt, self.path.as_str());
        }
        self.fault = Some(error);
    }

    /// Writes these bytes, and notes why that failed.
    fn write(&mut self, bytes: &[u8]) -> Result<(), Failed>
        ensures refused { self.new.is_refused ≡ self.old.is_refused }
        ensures lost { self.new.is_lost ≡ self.old.is_lost }
    {
        let Some(file) = &mut self.file else {
            return Err(Failed);
        };
        match file.write_all(bytes) {
            Ok(()) => {
                self.has_front = true;
                Ok(())
            }
            Err(error) => {
                self.lose(error);
                Err(Failed)
            }
        }
    }
}

impl KeptLines for RecordFile {
    ghost kept = { λ _. None };

    ghost refused = { λ file. file.is_refused };

    ghost lost = { λ file. file.is_lost };

    fn keep(&mut self, bytes: &[u8]) -> Result<(), Failed> {
        let kept = self.write(bytes);
        self.is_refused = self.is_refused || kept.is_err();
        kept
    }

    fn tell_lost(&mut self) {
        let path = self.path.as_str();
        match self.fault {
            Some(error) => {
                let _ = eprintln!(self.rt; "smd: what follows isn't recorded in {path}: {error}");
            }
            None => {
                let _ = eprintln!(self.rt; "smd: what follows isn't recorded in {path}");
            }
        }
        self.is_lost = true;
    }
}
