use crate::files::read_whole;
use copy_lines::{Found, highest_copy};
use owned_lists::NoMemory;
use std::io::ErrorKind;
use std::path::Path;
use std::{fs, io};

/// The folder in which a file lies.
pub fn folder_of(path: &str) -> &str {
    match Path::new(path).parent() {
        Some(parent) if !parent.as_str().is_empty() => parent.as_str(),
        _ => ".",
    }
}

/// The name of a file in its folder.
pub fn name_of(path: &str) -> &str {
    match path.rfind('/') {
        Some(at) => &path[at + 1..],
        None => path,
    }
}

/// What lies in the folder of a file. A name that is no text is passed over.
pub fn names_beside(rt: HostRuntime, path: &str) -> io::Result<Vec<String>> {
    let mut names = Vec::new(rt.alloc());
    for entry in fs::read_dir(&rt, folder_of(path))? {
        match entry {
            Ok(entry) => names.push(entry.file_name().to_string(rt.alloc())?)?,
            Err(error) if error.kind() == ErrorKind::InvalidFilename => {}
            Err(error) => return Err(error),
        }
    }
    Ok(names)
}

/// The path of a numbered copy.
pub fn copy_of(rt: HostRuntime, path: &str, number: u32) -> io::Result<String> {
    Ok(format!(in rt.alloc(); "{path}.{number}")?)
}

/// What lies there of the copies of a file when a run begins with this one.
pub fn found(rt: HostRuntime, path: &str, from: u32) -> io::Result<Found> {
    let names = names_beside(rt, path)?;
    let copy = copy_of(rt, path, from)?;
    let highest = match highest_copy(rt.alloc(), name_of(path), names.as_slice()) {
        Ok(highest) => highest,
        Err(NoMemory) => return Err(io::Error::from(ErrorKind::OutOfMemory)),
    };
    Ok(Found {
        highest,
        has_copy: from > 0 && fs::symlink_metadata(&rt, copy.as_str()).is_ok(),
        has_file: read_whole(rt, path).is_ok(),
    })
}
