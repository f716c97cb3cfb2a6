ghost use Rattle.std.specs.Prelude.{◌≡◌, ◌≤◌, length, drop, IfOk};

use client_peer::FILE_LIMIT;
use std::alloc::Global;
use std::fs::File;
use std::io;
use std::io::{ErrorKind, Read};
use std::os::unix::net::UnixStream;

/// How many bytes are read from a stream at once.
const CHUNK: usize = 4096;

/// Reads some bytes from a stream; this waits for them. A read that a signal interrupted is tried
/// again. None is the stream's end, where there is room. A peer that closes its end with bytes unread
/// resets the stream: that is its end too.
pub fn read_some(stream: &mut UnixStream, into: &mut [u8]) -> io::Result<usize>
    ensures within { IfOk result (λ n. n ≤ length into.old) }
    ensures rest { IfOk result (λ n. drop n into.new ≡ drop n into.old) }
{
    let mut chunk = [0u8; CHUNK];
    let room = into.len().min(CHUNK);
    let count = read_into(stream, &mut chunk[..room])?;
    into[..count].copy_from_slice(&chunk[..count]);
    Ok(count)
}

/// Reads some bytes from a stream.
fn read_into(stream: &mut UnixStream, into: &mut [u8]) -> io::Result<usize>
    ensures within { IfOk result (λ n. n ≤ length into.old) }
    ensures room { length into.new ≡ length into.old }
{
    for _ in 0..u64::MAX {
        match stream.read(into) {
            Ok(count) => return Ok(count),
            Err(error) if error.kind() == ErrorKind::Interrupted => {}
            Err(error) if error.kind() == ErrorKind::ConnectionReset => return Ok(0),
            Err(error) => return Err(error),
        }
    }
    Err(io::Error::from(ErrorKind::Interrupted))
}

/// All bytes of a file of at most 65,536; a longer one is refused.
pub fn read_file(rt: &HostRuntime, path: &str) -> io::Result<Vec<u8>>
    ensures { IfOk result (λ bytes. length bytes.items ≤ 65536) }
{
    let file = File::open(rt, path)?;
    let mut bytes = Vec::new(rt.alloc());
    file.take(FILE_LIMIT as u64 + 1).read_to_end(&mut bytes)?;
    if bytes.len() > FILE_LIMIT {
        let why = "it has more than 65536 bytes";
        return Err(io::Error::new(ErrorKind::InvalidInput, why));
    }
    Ok(bytes)
}
