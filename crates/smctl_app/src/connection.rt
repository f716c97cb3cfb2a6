ghost use Rattle.std.specs.Prelude.{None};

use crate::clients::look_at;
use crate::control::{Control, Look, Talk};
use crate::fault::Fault;
use std::alloc::Global;
use std::io::{BufRead, BufReader, ErrorKind, Write};
use std::os::unix::net::UnixStream;
use std::time::Duration;
use std::{fs, io};

/// How many milliseconds lie between two looks at who is there.
const TURN: u64 = 500;

/// Whether the time of a read was over, or the read is to be begun anew.
fn is_over(kind: ErrorKind) -> bool {
    matches!(
        kind,
        ErrorKind::WouldBlock | ErrorKind::TimedOut | ErrorKind::Interrupted
    )
}

/// A connection to the manager whose control socket is known. What it sends and sees is told to nobody.
#[derive(Drop)]
pub struct ControlConnection {
    rt: HostRuntime,
    path: String,
    reader: BufReader<UnixStream>,
}

impl ControlConnection {
    /// Connects to the control socket at this path.
    pub fn open(rt: HostRuntime, path: &str) -> io::Result<ControlConnection> {
        let stream = UnixStream::connect(&rt, path)?;
        Ok(ControlConnection {
            rt,
            path: path.to_string(rt.alloc())?,
            reader: BufReader::new(rt.alloc(), stream)?,
        })
    }
}

impl Talk for ControlConnection {
    ghost sent = { λ _. None };

    ghost seen = { λ _. None };

    fn say(&mut self, line: &[u8]) -> Result<(), Fault> {
        Ok(self.reader.get_mut().write_all(line)?)
    }

    fn hear(&mut self) -> Result<Vec<u8>, Fault> {
        let mut line = Vec::new(self.rt.alloc());
        let _count = self.reader.read_until(b'\n', &mut line)?;
        if line.last() == Some(&b'\n') {
            Ok(line)
        } else {
            Err(Fault::Gone)
        }
    }
}

impl Control for ControlConnection {
    fn look(&mut self, alloc: Global) -> Result<Look, Fault> {
        look_at(alloc, self)
    }

    fn rest(&mut self) -> Result<bool, Fault> {
        self.reader
            .get_ref()
            .set_read_timeout(Some(Duration::from_millis(TURN)))?;
        let is_there = match self.reader.fill_buf() {
            Ok(bytes) => !bytes.is_empty(),
            Err(error) if is_over(error.kind()) => true,
            Err(error) => return Err(Fault::from(error)),
        };
        self.reader.get_ref().set_read_timeout(None)?;
        Ok(is_there)
    }

    fn is_left(&self) -> bool {
        fs::symlink_metadata(&self.rt, self.path.as_str()).is_ok()
    }
}
