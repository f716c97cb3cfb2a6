use std::fs::{File, Metadata, OpenOptions, Permissions, TryLockError};
use std::io::{ErrorKind, Write};
use std::os::unix::fs::{FileExt, MetadataExt, OpenOptionsExt, PermissionsExt};
use std::path::Path;
use std::time::Duration;
use std::{fs, io, process, thread};

/// The mode of a file that is its owner's alone.
const PRIVATE: u32 = 0o600;

/// What of a mode is others'.
const OTHERS: u32 = 0o077;

/// How many zeros are written at once.
const CHUNK: usize = 65_536;

/// The bytes of a page, of which the system writes all or none. Larger pages have several of these.
const PAGE: u64 = 4096;

/// How often a store is tried that another process has, and how many milliseconds lie between.
const TRIES: u64 = 20;

const PAUSE: u64 = 100;

/// Makes a file that is its owner's alone, in place of any that a crash left there.
fn create_private(rt: HostRuntime, path: &str) -> io::Result<File> {
    let _ = fs::remove_file(&rt, path);
    let mut how = OpenOptions::new();
    how.write(true).create_new(true);
    how.mode(PRIVATE);
    how.open(&rt, path)
}

/// A name beside a file, which no other process takes.
fn name_beside(rt: HostRuntime, path: &str) -> io::Result<String> {
    Ok(format!(in rt.alloc(); "{path}.new-{}", process::id(rt.process()))?)
}

/// Waits until the name of a file is on the disk.
fn sync_folder(rt: HostRuntime, path: &str) -> io::Result<()> {
    let folder = match Path::new(path).parent() {
        Some(parent) if !parent.as_str().is_empty() => parent.as_str(),
        _ => ".",
    };
    fs::open(&rt, folder)?.sync_all()
}

/// Writes a file of so many zeros beside the path, and then gives it the name. A file that has the
/// name by then stays.
fn fill_store(rt: HostRuntime, new: &str, path: &str, size: u64) -> io::Result<()> {
    let mut file = create_private(rt, new)?;
    let zeros = vec![in rt.alloc(); 0u8; CHUNK]?;
    let chunk = CHUNK as u64;
    for _ in 0..size / chunk {
        file.write_all(zeros.as_slice())?;
    }
    file.write_all(&zeros[..(size % chunk) as usize])?;
    file.sync_all()?;
    match fs::hard_link(&rt, new, path) {
        Err(error) if error.kind() == ErrorKind::AlreadyExists => Ok(()),
        linked => linked,
    }
}

/// Makes the store: it is whole, and on the disk, before its name stands.
fn make_store(rt: HostRuntime, path: &str, size: u64) -> io::Result<()> {
    let new = name_beside(rt, path)?;
    let filled = fill_store(rt, new.as_str(), path, size);
    let _ = fs::remove_file(&rt, new.as_str());
    filled
}

/// What is refused as a store, besides what the system refuses.
fn refused(why: &str) -> io::Error {
    io::Error::new(ErrorKind::InvalidInput, why)
}

/// Whether a file stands at this path itself. A link's folder isn't the one whose sync keeps the name.
fn check_name(rt: HostRuntime, path: &str) -> io::Result<()> {
    if fs::symlink_metadata(&rt, path)?.is_symlink() {
        Err(refused("it is a symbolic link"))
    } else {
        Ok(())
    }
}

fn open_store(rt: HostRuntime, path: &str, size: u64) -> io::Result<File> {
    let mut how = OpenOptions::new();
    how.read(true).write(true);
    match check_name(rt, path) {
        Err(error) if error.kind() == ErrorKind::NotFound => make_store(rt, path, size)?,
        checked => checked?,
    }
    how.open(&rt, path)
}

/// Locks a file for us alone. A program that is being started holds the lock of the manager that
/// starts it until it runs, also where that one is killed meanwhile; so this waits for two seconds.
fn lock(rt: HostRuntime, file: &File) -> io::Result<()> {
    for _ in 0..TRIES {
        match file.try_lock() {
            Ok(()) => return Ok(()),
            Err(TryLockError::WouldBlock) => thread::sleep(&rt, Duration::from_millis(PAUSE)),
            Err(TryLockError::Error(error)) => return Err(error),
        }
    }
    Err(io::Error::new(ErrorKind::ResourceBusy, "another session manager has it"))
}

/// Whether a store with these data is taken: it must be that of who runs this, and nobody else's, since
/// the commands in it are started.
fn check_owner(found: &Metadata) -> io::Result<()> {
    if found.uid() != libc::geteuid() {
        return Err(refused("its owner is another user"));
    }
    if found.mode() & OTHERS != 0 {
        return Err(refused("others may use it: its mode must be 600"));
    }
    Ok(())
}

/// Whether a manager of who runs this takes a file with these data at this path, where a store has this
/// size. One of another size is told as such later.
pub fn check_file(rt: HostRuntime, path: &str, found: &Metadata, size: u64) -> io::Result<()> {
    check_name(rt, path)?;
    if found.len() == size {
        check_owner(found)
    } else {
        Ok(())
    }
}

/// The size of a locked store. It must be the very file that has the name, and one of this size must
/// be its owner's alone.
fn checked_size(rt: HostRuntime, file: &File, path: &str, size: u64) -> io::Result<u64> {
    let found = file.metadata()?;
    if !found.is_file() {
        return Err(refused("it is no file"));
    }
    let named = fs::symlink_metadata(&rt, path)?;
    if named.dev() != found.dev() || named.ino() != found.ino() {
        return Err(refused("it was replaced meanwhile"));
    }
    if found.len() == size {
        check_owner(&found)?;
    }
    Ok(found.len())
}

/// Writes a byte of each page of a file as it was read.
fn touch_pages(file: &File, size: u64) -> io::Result<()> {
    let mut byte = [0u8];
    for page in 0..(size / PAGE).saturating_add(1) {
        let at = page.saturating_mul(PAGE);
        if at < size {
            file.read_exact_at(&mut byte, at)?;
            file.write_all_at(&byte, at)?;
        }
    }
    Ok(())
}

/// Opens the store for us alone, and tells its size. A missing one is made with this size.
///
/// A manager that was killed may have written what it didn't sync: it is read from the system's
/// memory, and a crash may still lose it. So the store and its name are brought to the disk before
/// anything is read. Where a sync failed in that manager, the system may take for written what isn't, and
/// a sync alone would do nothing: so something of each page is written once more.
pub fn take_store(rt: HostRuntime, path: &str, size: u64) -> io::Result<(File, u64)> {
    let file = open_store(rt, path, size)?;
    lock(rt, &file)?;
    let found = checked_size(rt, &file, path, size)?;
    if found == size {
        touch_pages(&file, size)?;
    }
    file.sync_all()?;
    sync_folder(rt, path)?;
    Ok((file, found))
}

/// The name of the lock beside a small file.
pub fn lock_name(rt: HostRuntime, path: &str) -> io::Result<String> {
    Ok(format!(in rt.alloc(); "{path}.lock")?)
}

/// Locks a file's name beside it, for as long as what is given lives, so that no other manager puts its
/// own in the place. The lock's file stays behind.
pub fn hold_name(rt: HostRuntime, path: &str) -> io::Result<File> {
    let name = lock_name(rt, path)?;
    let mut how = OpenOptions::new();
    how.read(true).write(true).create(true);
    how.mode(PRIVATE);
    let file = how.open(&rt, name.as_str())?;
    lock(rt, &file)?;
    Ok(file)
}

/// Writes a new file with this mode, or one that is its owner's alone, and brings it to the disk.
fn write_whole(rt: HostRuntime, new: &str, bytes: &[u8], mode: Option<u32>) -> io::Result<()> {
    let mut file = create_private(rt, new)?;
    file.write_all(bytes)?;
    if let Some(mode) = mode {
        file.set_permissions(Permissions::from_mode(mode))?;
    }
    file.sync_all()
}

fn write_new(
    rt: HostRuntime,
    new: &str,
    path: &str,
    bytes: &[u8],
    mode: Option<u32>,
) -> io::Result<()> {
    write_whole(rt, new, bytes, mode)?;
    fs::rename(&rt, new, path)
}

/// Gives a new file its name. A file that has the name by then stays, and is a fault. Where the file system has no hard links it
/// is looked for before.
fn name_new(rt: HostRuntime, new: &str, path: &str) -> io::Result<()> {
    match fs::hard_link(&rt, new, path) {
        Ok(()) => Ok(()),
        Err(error) if error.kind() == ErrorKind::AlreadyExists => Err(error),
        Err(error) => match fs::symlink_metadata(&rt, path) {
            Err(found) if found.kind() == ErrorKind::NotFound => fs::rename(&rt, new, path),
            _ => Err(error),
        },
    }
}

/// Makes a new file with this mode, which is on the disk then. One that has the name stays, and is a fault.
pub fn create(rt: HostRuntime, path: &str, bytes: &[u8], mode: u32) -> io::Result<()> {
    let new = name_beside(rt, path)?;
    let made = match write_whole(rt, new.as_str(), bytes, Some(mode)) {
        Ok(()) => name_new(rt, new.as_str(), path),
        Err(error) => Err(error),
    };
    let _ = fs::remove_file(&rt, new.as_str());
    made?;
    sync_folder(rt, path)
}

/// Puts a new file in the place of a file: one with this mode, or one that is its owner's alone.
/// Whoever reads the file finds the old one or the new one, and never a part; the new one is on the
/// disk then.
pub fn replace(rt: HostRuntime, path: &str, bytes: &[u8], mode: Option<u32>) -> io::Result<()> {
    let new = name_beside(rt, path)?;
    match write_new(rt, new.as_str(), path, bytes, mode) {
        Ok(()) => sync_folder(rt, path),
        Err(error) => {
            let _ = fs::remove_file(&rt, new.as_str());
            Err(error)
        }
    }
}
