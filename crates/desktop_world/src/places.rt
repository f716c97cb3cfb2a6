use std::os::unix::fs::MetadataExt;
use std::path::{Path, PathBuf};
use std::{fs, io};
use store_file::lock_name;
use unix_links::{control_fault, path_fault};

/// How many links lead on from one to the next at most.
const LINKS: usize = 40;

/// Where the files of a session lie.
#[derive(Clone, Copy, Debug, PartialEq, Eq)]
pub struct Places<'a> {
    /// The program whose session it is, by which it calls itself where it tells the user something.
    pub program: &'a str,
    pub socket: &'a str,
    pub control: &'a str,
    pub store: &'a str,
    pub authority: &'a str,
    /// Where it is recorded, if it is.
    pub record: Option<&'a str>,
}

/// What can't be had at the places of a session.
#[derive(Clone, Copy, Debug, PartialEq, Eq)]
pub enum BadPlaces {
    /// Nobody can listen at a socket's place, or it is another's too.
    Sockets,
    /// Two of the store, the authority file with its lock, and the record would be one.
    Files,
}

/// What tells a file from all others.
type Identity = (u64, u64);

fn identity(rt: &HostRuntime, path: &str) -> io::Result<Identity> {
    let found = fs::metadata(rt, path)?;
    Ok((found.dev(), found.ino()))
}

/// The folder in which a file lies, or would lie.
fn folder(rt: &HostRuntime, path: &str) -> io::Result<Identity> {
    match Path::new(path).parent() {
        Some(parent) if !parent.as_str().is_empty() => identity(rt, parent.as_str()),
        _ => identity(rt, "."),
    }
}

/// Whether two paths have the same name in the same folder.
fn is_one_name(rt: &HostRuntime, first: &str, second: &str) -> bool {
    if Path::new(first).file_name() != Path::new(second).file_name() {
        return false;
    }
    match (folder(rt, first), folder(rt, second)) {
        (Ok(first), Ok(second)) => first == second,
        _ => false,
    }
}

/// The path to which a link leads.
fn target_of(rt: &HostRuntime, link: &str) -> io::Result<PathBuf> {
    let link = Path::new(link);
    let target = link.read_link(rt)?;
    match link.parent() {
        Some(parent) => Ok(parent.join(rt.alloc(), target.as_str())?),
        None => Ok(target),
    }
}

/// The path to which a path leads in the end, also where nothing stands there.
fn led_to(rt: &HostRuntime, path: &str) -> io::Result<PathBuf> {
    let mut place = Path::new(path).to_path_buf(rt.alloc())?;
    for _ in 0..LINKS {
        match target_of(rt, place.as_str()) {
            Ok(target) => place = target,
            Err(_) => break,
        }
    }
    Ok(place)
}

/// Whether two paths have one name in one folder behind the links at which they stand.
fn lead_to_one(rt: &HostRuntime, first: &str, second: &str) -> bool {
    match (led_to(rt, first), led_to(rt, second)) {
        (Ok(first), Ok(second)) => is_one_name(rt, first.as_str(), second.as_str()),
        _ => false,
    }
}

/// Whether two paths are one file, or would be one.
fn is_one(rt: &HostRuntime, first: &str, second: &str) -> bool {
    if first == second || is_one_name(rt, first, second) || lead_to_one(rt, first, second) {
        return true;
    }
    match (identity(rt, first), identity(rt, second)) {
        (Ok(first), Ok(second)) => first == second,
        _ => false,
    }
}

impl Places<'_> {
    /// Why a socket can't be had, which the user is told.
    fn bad_socket(&self, rt: &HostRuntime) -> bool {
        for (path, fault) in [
            (self.socket, path_fault(self.socket)),
            (self.control, control_fault(self.control)),
        ] {
            if let Some(fault) = fault {
                let _ = eprintln!(rt; "{}: cannot listen at {path}: {fault}", self.program);
                return true;
            }
        }
        false
    }

    /// Whether a path is that of one of these files, which the user is told.
    fn clashes(&self, rt: &HostRuntime, path: &str, others: &[&str]) -> bool {
        for other in others {
            if is_one(rt, path, other) {
                let _ = eprintln!(rt; "{}: {path} and {other} would be one file", self.program);
                return true;
            }
        }
        false
    }

    /// Whether another socket is that of the session, which the user is told.
    pub fn has_socket(&self, rt: &HostRuntime, other: &str) -> bool {
        self.clashes(rt, other, &[self.socket])
    }

    /// Whether the record would be one of these files, which the user is told.
    fn record_clashes(&self, rt: &HostRuntime, others: &[&str]) -> bool {
        match self.record {
            Some(record) => self.clashes(rt, record, others),
            None => false,
        }
    }

    /// Whether the record would be the lock of the authority file, which the user is told.
    fn record_is_lock(&self, rt: &HostRuntime) -> bool {
        match lock_name(*rt, self.authority) {
            Ok(lock) => self.record_clashes(rt, &[lock.as_str()]),
            Err(_) => false,
        }
    }

    /// What can't be had at these places, as far as it can be seen before anything is made. The user
    /// is told why.
    pub fn fault(&self, rt: &HostRuntime) -> Option<BadPlaces> {
        if self.bad_socket(rt)
            || self.clashes(rt, self.socket, &[self.control, self.store, self.authority])
            || self.clashes(rt, self.control, &[self.store, self.authority])
            || self.record_clashes(rt, &[self.socket, self.control])
        {
            return Some(BadPlaces::Sockets);
        }
        if self.clashes(rt, self.store, &[self.authority])
            || self.record_clashes(rt, &[self.store, self.authority])
            || self.record_is_lock(rt)
        {
            return Some(BadPlaces::Files);
        }
        None
    }
}
