use bytes::BytesMut;
use mio::net::UnixStream;
use owned_lists::NoMemory;
use std::alloc::Global;
use std::io;
use std::io::{ErrorKind, Write};

/// How many bytes may wait for a peer that doesn't read.
pub const OUTBOX_LIMIT: usize = 1_048_576;

/// What became of the bytes.
#[derive(Clone, Copy, Debug, PartialEq, Eq)]
pub enum Progress {
    /// All are with the system.
    All,
    /// Some wait until the peer reads.
    Some,
    /// The peer can't be served any more: too much waits, or the stream failed.
    Broken,
}

/// The bytes that a peer hasn't taken yet.
#[derive(Drop)]
pub struct Outbox {
    bytes: BytesMut,
    /// The peer takes nothing any more. What it sent before may still be read, so it isn't gone.
    is_deaf: bool,
}

impl Outbox {
    pub fn new(alloc: Global) -> Outbox {
        Outbox {
            bytes: BytesMut::new(alloc),
            is_deaf: false,
        }
    }

    /// Whether nothing waits.
    pub fn is_empty(&self) -> bool {
        self.bytes.is_empty()
    }

    /// Puts these bytes behind those that wait; false where too many would wait then.
    pub fn put(&mut self, bytes: &[u8]) -> Result<bool, NoMemory> {
        if self.is_deaf {
            return Ok(true);
        }
        let waiting = self.bytes.len();
        if bytes.len() > OUTBOX_LIMIT || waiting > OUTBOX_LIMIT - bytes.len() {
            return Ok(false);
        }
        self.bytes.extend_from_slice(bytes)?;
        Ok(true)
    }

    /// Sends these bytes behind those that wait.
    pub fn send(&mut self, stream: &UnixStream, bytes: &[u8]) -> Result<Progress, NoMemory> {
        let waits = !self.bytes.is_empty();
        if !self.put(bytes)? {
            return Ok(Progress::Broken);
        }
        if waits {
            Ok(Progress::Some)
        } else {
            Ok(self.flush(stream))
        }
    }

    /// Hands the system as much as it takes.
    pub fn flush(&mut self, stream: &UnixStream) -> Progress {
        let mut to = stream;
        // Each turn but the last takes a byte at least.
        for _ in 0..=OUTBOX_LIMIT {
            if self.bytes.is_empty() {
                return Progress::All;
            }
            match to.write(self.bytes.as_slice()) {
                Ok(count) => self.bytes.advance(count),
                Err(error) => return self.refused(&error),
            }
        }
        Progress::Some
    }

    fn refused(&mut self, error: &io::Error) -> Progress {
        match error.kind() {
            ErrorKind::WouldBlock | ErrorKind::Interrupted => Progress::Some,
            ErrorKind::BrokenPipe | ErrorKind::ConnectionReset => {
                self.is_deaf = true;
                self.bytes.clear();
                Progress::All
            }
            _ => Progress::Broken,
        }
    }
}
