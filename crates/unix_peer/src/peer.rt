ghost use Rattle.std.specs.Prelude.{◌≡◌};
ghost use Rattle.sm_world.specs.declared.failures.Failure.TheVariants.{Failed as HasFailed};
ghost use Rattle.program_frame.specs.Untold.{CountsFault};
ghost use Rattle.unix_peer.specs.Untold.{peer_outside};

use crate::reading::{read_file, read_some};
use client_peer::Peer;
use owned_lists::Octets;
use program_frame::StandardConsole;
use sm_world::{Console, Failure, Told};
use std::io::{ErrorKind, Write};
use std::os::unix::net::UnixStream;

/// A client's connection over a Unix socket, the files of the system, and standard input and output.
/// What they hold is told to nobody; each fault is counted. Before it is connected, and on a
/// connection that has failed, the stream gives and takes nothing.
#[derive(Drop)]
pub struct UnixPeer {
    rt: HostRuntime,
    stream: Option<UnixStream>,
    console: StandardConsole,
    faults: u64,
}

impl UnixPeer {
    /// A client that isn't connected.
    pub fn new(rt: HostRuntime) -> UnixPeer {
        UnixPeer {
            rt,
            stream: None,
            console: StandardConsole::new(rt),
            faults: 0,
        }
    }

    /// A client that is connected over this stream, which must wait for what it reads and writes.
    pub fn over(rt: HostRuntime, stream: UnixStream) -> UnixPeer {
        UnixPeer {
            rt,
            stream: Some(stream),
            console: StandardConsole::new(rt),
            faults: 0,
        }
    }

    /// Counts a fault of the connection or of a file.
    fn failed(&mut self) -> Failure
        ensures counted { CountsFault self.old.faults self.new.faults }
        ensures refusal { result ≡ HasFailed }
        ensures console { self.new.console ≡ self.old.console }
    {
        self.faults = self.faults.saturating_add(1);
        Failure::Failed
    }
}

impl Told for UnixPeer {
    ghost outside = { peer_outside };
}

impl Peer for UnixPeer {
    fn connect(&mut self, path: &str) -> Result<(), Failure> {
        match UnixStream::connect(&self.rt, path) {
            Ok(stream) => {
                self.stream = Some(stream);
                Ok(())
            }
            Err(_) => Err(self.failed()),
        }
    }

    fn receive(&mut self, into: &mut [u8]) -> Result<usize, Failure> {
        let read = match &mut self.stream {
            Some(stream) => read_some(stream, into).ok(),
            None => None,
        };
        match read {
            Some(count) => Ok(count),
            None => Err(self.failed()),
        }
    }

    fn deliver(&mut self, bytes: &[u8]) -> Result<(), Failure> {
        let sent = match &mut self.stream {
            Some(stream) => stream.write_all(bytes).is_ok(),
            None => false,
        };
        if sent { Ok(()) } else { Err(self.failed()) }
    }

    fn fetch(&mut self, path: &str) -> Result<Octets, Failure> {
        match read_file(&self.rt, path) {
            Ok(bytes) => Ok(Octets::from_vec(bytes)),
            Err(error) if error.kind() == ErrorKind::OutOfMemory => Err(Failure::NoMemory),
            Err(_) => Err(self.failed()),
        }
    }
}

impl Console for UnixPeer {
    fn read(&mut self, into: &mut [u8]) -> Result<usize, Failure> {
        self.console.read(into)
    }

    fn print(&mut self, bytes: &[u8]) -> Result<(), Failure> {
        self.console.print(bytes)
    }
}
