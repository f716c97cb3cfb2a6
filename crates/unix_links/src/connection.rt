use crate::outbox::{Outbox, Progress};
use crate::sources::Source;
use mio::net::UnixStream;
use mio::{Interest, Registry};
use owned_lists::NoMemory;
use sm_world::Conn;
use std::alloc::Global;
use std::io;
use std::net::Shutdown;

/// A connection, which a client came by or which leads to another manager.
#[derive(Drop)]
pub struct Connection {
    pub stream: UnixStream,
    outbox: Outbox,
    /// The system told that the peer sends no more. It won't tell again, so all is read that is left.
    pub ends: bool,
    /// The system tells when the stream takes bytes again. It is asked for that only while some wait,
    /// since each read of the peer's would wake us else.
    waits: bool,
}

impl Connection {
    /// A connection of which the system is to tell; none where it can't.
    pub fn new(
        alloc: Global,
        registry: &Registry,
        conn: Conn,
        mut stream: UnixStream,
    ) -> Option<Connection> {
        let token = Source::Client(conn).token();
        if registry
            .register(&mut stream, token, Interest::READABLE)
            .is_err()
        {
            return None;
        }
        Some(Connection {
            stream,
            outbox: Outbox::new(alloc),
            ends: false,
            waits: false,
        })
    }

    /// Asks the system to tell when the stream takes bytes again, or not to.
    fn watch(&mut self, registry: &Registry, conn: Conn, waits: bool) -> io::Result<()> {
        self.waits = waits;
        let interest = if waits {
            Interest::READABLE | Interest::WRITABLE
        } else {
            Interest::READABLE
        };
        registry.reregister(&mut self.stream, Source::Client(conn).token(), interest)
    }

    /// Goes on after bytes were sent; false where the peer can't be served any more.
    fn keeps(&mut self, registry: &Registry, conn: Conn, progress: Progress) -> bool {
        let waits = match progress {
            Progress::All => false,
            Progress::Some => true,
            Progress::Broken => return false,
        };
        self.waits == waits || self.watch(registry, conn, waits).is_ok()
    }

    /// Sends these bytes behind those that wait; false where the peer can't be served any more.
    pub fn send(
        &mut self,
        registry: &Registry,
        conn: Conn,
        bytes: &[u8],
    ) -> Result<bool, NoMemory> {
        let progress = self.outbox.send(&self.stream, bytes)?;
        Ok(self.keeps(registry, conn, progress))
    }

    /// Whether no bytes wait for the peer.
    pub fn is_sent(&self) -> bool {
        self.outbox.is_empty()
    }

    /// Puts these bytes behind those that wait, to be sent by `flush`. Where too many would wait, those
    /// that the system wasn't asked to take yet go first; false where the peer can't be served any more.
    pub fn put(&mut self, registry: &Registry, conn: Conn, bytes: &[u8]) -> Result<bool, NoMemory> {
        if self.outbox.put(bytes)? {
            return Ok(true);
        }
        if self.waits || !self.flush(registry, conn) {
            return Ok(false);
        }
        self.outbox.put(bytes)
    }

    /// Sends what waits; false where the peer can't be served any more.
    pub fn flush(&mut self, registry: &Registry, conn: Conn) -> bool {
        let progress = self.outbox.flush(&self.stream);
        self.keeps(registry, conn, progress)
    }

    /// Sends what waits, and tells the peer when nothing follows; false where that can't be done.
    pub fn finish(&mut self, registry: &Registry, conn: Conn) -> bool {
        self.flush(registry, conn) && (self.waits || self.stream.shutdown(Shutdown::Write).is_ok())
    }
}
