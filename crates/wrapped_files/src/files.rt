ghost use Rattle.std.specs.Prelude.{◌≤◌, length, IfOk};

use state_saver::FILE_LIMIT;
use std::fs::File;
use std::io;
use std::io::{ErrorKind, Read};
use std::os::unix::fs::MetadataExt;

/// What of a mode a copy keeps.
const PERMISSIONS: u32 = 0o777;

/// What was read of a file.
#[derive(Drop)]
pub struct Found {
    pub bytes: Vec<u8>,
    /// Its permissions.
    pub mode: u32,
}

/// All bytes of a file of at most 65,536, and its permissions.
pub fn read_whole(rt: HostRuntime, path: &str) -> io::Result<Found>
    ensures { IfOk result (λ found. length found.bytes.items ≤ 65536) }
{
    let file = File::open(&rt, path)?;
    let mode = file.metadata()?.mode() & PERMISSIONS;
    let mut bytes = Vec::new(rt.alloc());
    file.take(FILE_LIMIT as u64 + 1).read_to_end(&mut bytes)?;
    if bytes.len() > FILE_LIMIT {
        let why = "it has more than 65536 bytes";
        return Err(io::Error::new(ErrorKind::InvalidInput, why));
    }
    Ok(Found { bytes, mode })
}
