ghost use Rattle.std.specs.Prelude.{IfOk, IsSome};
ghost use Rattle.sm_world.specs.declared.effects.Effect.TheVariants.{Heard, Sent, Shut, Started, Printed};
ghost use Rattle.control_lines.specs.Traces.{effect_text};
ghost use Rattle.session_recorder.specs.Recorded.{IsLineOf};

use crate::kept_lines::KeptLines;
use crate::recorder::Recorder;
use control_lines::{effect_line, started_line};
use owned_lists::{Command, Duplicate, NoMemory, Octets};
use sm_world::{Conn, Console, Disk, Effect, Event, Failed, Failure, Links, Spawner, Told};
use std::alloc::Global;

/// The whole line of an effect that has one.
fn whole_line(alloc: Global, effect: &Effect) -> Result<Octets, NoMemory>
    requires { IsSome (effect_text effect.now) }
    ensures { IfOk result (IsLineOf effect.now) }
{
    let mut line = effect_line(alloc, effect)?;
    line.append(b"\n")?;
    Ok(line)
}

/// The line of an event that was heard.
fn heard_line(alloc: Global, event: &Event) -> Result<Octets, NoMemory>
    ensures { IfOk result (IsLineOf (Heard event.now)) }
{
    whole_line(alloc, &Effect::Heard(event.copy()?))
}

/// The line of bytes that were sent.
fn sent_line(alloc: Global, to: Conn, bytes: &[u8]) -> Result<Octets, NoMemory>
    ensures { IfOk result (IsLineOf (Sent to bytes.now)) }
{
    whole_line(alloc, &Effect::Sent(to, Octets::from_slice(alloc, bytes)?))
}

/// The line of a connection that was closed.
fn shut_line(alloc: Global, to: Conn) -> Result<Octets, NoMemory>
    ensures { IfOk result (IsLineOf (Shut to)) }
{
    whole_line(alloc, &Effect::Shut(to))
}

/// The line of a command that was started, or couldn't be.
fn start_line(alloc: Global, command: &Command, succeeded: bool) -> Result<Octets, NoMemory>
    ensures { IfOk result (IsLineOf (Started command.now succeeded)) }
{
    let mut line = started_line(alloc, command, succeeded)?;
    line.append(b"\n")?;
    Ok(line)
}

/// The line of a text that was printed.
fn printed_line(alloc: Global, text: &[u8]) -> Result<Octets, NoMemory>
    ensures { IfOk result (IsLineOf (Printed text.now)) }
{
    whole_line(alloc, &Effect::Printed(Octets::from_slice(alloc, text)?))
}

impl<W: Told, R: KeptLines> Told for Recorder<W, R> {
    ghost outside = { λ recorder. W.outside recorder.world };
}

impl<W: Links, R: KeptLines> Links for Recorder<W, R> {
    fn listen(&mut self, socket: &str, control: &str) -> Result<(), Failure> {
        self.world.listen(socket, control)
    }

    fn next(&mut self) -> Result<Event, Failure> {
        let event = self.world.next()?;
        self.record.note(heard_line(self.alloc, &event));
        Ok(event)
    }

    fn send(&mut self, to: Conn, bytes: &[u8]) -> Result<(), Failure> {
        self.world.send(to, bytes)?;
        self.record.note(sent_line(self.alloc, to, bytes));
        Ok(())
    }

    fn shut(&mut self, to: Conn) -> Result<(), Failure> {
        self.world.shut(to)?;
        self.record.note(shut_line(self.alloc, to));
        Ok(())
    }
}

impl<W: Spawner, R: KeptLines> Spawner for Recorder<W, R> {
    fn start(&mut self, command: &Command) -> Result<bool, NoMemory> {
        let succeeded = self.world.start(command)?;
        self.record.note(start_line(self.alloc, command, succeeded));
        Ok(succeeded)
    }
}

impl<W: Console, R: KeptLines> Console for Recorder<W, R> {
    fn read(&mut self, into: &mut [u8]) -> Result<usize, Failure> {
        self.world.read(into)
    }

    fn print(&mut self, bytes: &[u8]) -> Result<(), Failure> {
        self.world.print(bytes)?;
        self.record.note_printed(printed_line(self.alloc, bytes));
        Ok(())
    }
}

impl<W: Disk, R: KeptLines> Disk for Recorder<W, R> {
    ghost sized = { λ recorder. W.sized recorder.world };

    fn attach(&mut self, path: &str) -> Result<(), Failure> {
        self.world.attach(path)
    }

    fn size(&mut self) -> Result<u64, Failure> {
        self.world.size()
    }

    fn read_at(&mut self, at: u64, into: &mut [u8]) -> Result<(), Failure> {
        self.world.read_at(at, into)
    }

    fn write_at(&mut self, at: u64, bytes: &[u8]) -> Result<(), Failed> {
        self.world.write_at(at, bytes)
    }

    fn sync(&mut self) -> Result<(), Failed> {
        self.world.sync()
    }

    fn publish(&mut self, path: &str, bytes: &[u8]) -> Result<(), Failure> {
        self.world.publish(path, bytes)
    }
}
