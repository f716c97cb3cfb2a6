ghost use Rattle.std.specs.Prelude.{◌≡◌};
ghost use Rattle.program_frame.specs.Untold.{console_outside, CountsFault};

use sm_world::{Console, Failure, Told};
use std::io;
use std::io::{ErrorKind, Read, Write};

/// Standard input and output. What they hold is told to nobody; each fault is counted.
#[derive(Drop)]
pub struct StandardConsole {
    rt: HostRuntime,
    faults: u64,
}

impl StandardConsole {
    pub fn new(rt: HostRuntime) -> StandardConsole {
        StandardConsole { rt, faults: 0 }
    }

    fn failed(&mut self) -> Failure
        ensures counted { CountsFault self.old.faults self.new.faults }
        ensures refusal { result ≡ Failure.Failed }
    {
        self.faults = self.faults.saturating_add(1);
        Failure::Failed
    }
}

impl Told for StandardConsole {
    ghost outside = { console_outside };
}

impl Console for StandardConsole {
    fn read(&mut self, into: &mut [u8]) -> Result<usize, Failure> {
        // A read that a signal interrupted is tried again.
        for _ in 0..u64::MAX {
            match self.rt.reader().read(into) {
                Ok(count) => return Ok(count),
                Err(error) if error.kind() == ErrorKind::Interrupted => {}
                Err(_) => break,
            }
        }
        Err(self.failed())
    }

    fn print(&mut self, bytes: &[u8]) -> Result<(), Failure> {
        match io::writer(&self.rt).write_all(bytes) {
            Ok(()) => Ok(()),
            Err(_) => Err(self.failed()),
        }
    }
}
