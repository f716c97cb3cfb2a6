use crate::files::read_whole;
use crate::lying::{folder_of, name_of, names_beside};
use jiff::Timestamp;
use std::io::ErrorKind;
use std::{fs, io};

/// How many files that something was put over stay beside it.
const MOST: usize = 3;

/// What stands between the name of a file and the time at which something was put over it.
const MARK: &str = ".kept-";

/// Whether there is a file that has other bytes.
pub fn has_other(rt: HostRuntime, path: &str, bytes: &[u8]) -> bool {
    match read_whole(rt, path) {
        Ok(found) => found.bytes.as_slice() != bytes,
        Err(error) => error.kind() != ErrorKind::NotFound,
    }
}

/// The name beside a file under which it stays: it tells the time, by the world's clock.
fn name_now(rt: HostRuntime, path: &str) -> io::Result<String> {
    let now = match Timestamp::now(&rt) {
        Ok(now) => now,
        Err(_) => return Err(io::Error::new(ErrorKind::Other, "the clock cannot be read")),
    };
    Ok(format!(in rt.alloc(); "{path}{MARK}{now}")?)
}

/// Keeps a file beside it as it stands, by a second name, or by a copy where the file system has no such names.
pub fn keep(rt: HostRuntime, path: &str) -> io::Result<String> {
    let kept = name_now(rt, path)?;
    match fs::hard_link(&rt, path, kept.as_str()) {
        Ok(()) => Ok(kept),
        Err(error) if error.kind() == ErrorKind::AlreadyExists => Err(error),
        Err(_) => {
            fs::copy(&rt, path, kept.as_str())?;
            fs::open(&rt, kept.as_str())?.sync_all()?;
            Ok(kept)
        }
    }
}

/// Whether a name is this front and a time behind it, and so none that a user gave.
fn is_kept(name: &str, front: &str) -> bool {
    match name.strip_prefix(front) {
        Some(time) => time.parse::<Timestamp>().is_ok(),
        None => false,
    }
}

/// The names of a file that are kept, the oldest first.
fn kept_names(rt: HostRuntime, path: &str) -> io::Result<Vec<String>> {
    let front = format!(in rt.alloc(); "{}{MARK}", name_of(path))?;
    let mut kept = Vec::new(rt.alloc());
    for name in names_beside(rt, path)? {
        if is_kept(name.as_str(), front.as_str()) {
            kept.push(name)?;
        }
    }
    kept.sort()?;
    Ok(kept)
}

/// Removes those that were kept before the last three.
pub fn forget_old(rt: HostRuntime, path: &str) -> io::Result<()> {
    let kept = kept_names(rt, path)?;
    let old = kept.len().saturating_sub(MOST);
    for name in &kept[..old] {
        let path = format!(in rt.alloc(); "{}/{name}", folder_of(path))?;
        fs::remove_file(&rt, path.as_str())?;
    }
    Ok(())
}
