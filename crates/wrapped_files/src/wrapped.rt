ghost use Rattle.std.specs.Prelude.{◌≡◌};
ghost use Rattle.program_frame.specs.Untold.{CountsFault};
ghost use Rattle.sm_world.specs.declared.failures.Failure.TheVariants.{Failed as HasFailed};
ghost use Rattle.wrapped_files.specs.Untold.{wrapped_outside};

use crate::files::read_whole;
use crate::keeping::{forget_old, has_other, keep};
use crate::lying::{copy_of, found};
use crate::starting::start;
use copy_lines::{Beginning, begin};
use owned_lists::{Command, NoMemory, Octets};
use program_frame::StandardConsole;
use program_spawner::Readable;
use sm_world::{Console, Failure, Spawner, Told};
use state_saver::Files;
use std::io::ErrorKind;
use std::process::Child;
use std::{fs, io};
use store_file::{create, replace};

/// The permissions of a file that is its owner's alone.
const PRIVATE: u32 = 0o600;

/// The files of the system, programs that are started, and standard input and output. A file that is
/// published gets the permissions of the one that was fetched last, of which it is a copy. Where the
/// state is published, what it had stays beside it; any other file is a copy, which never takes the
/// place of one that lies there. Each fault is counted, and one of a file or a start is told on
/// standard error.
#[derive(Drop)]
pub struct WrappedFiles {
    rt: HostRuntime,
    console: StandardConsole,
    /// The program that was started last.
    child: Option<Child>,
    mode: u32,
    /// The path of the state, or an empty one before a run begins.
    state: String,
    /// The copy that was made so that a run can begin with it, and that no session names.
    made: Option<String>,
    /// Whether there is a copy with which a next run can begin.
    has_copy: bool,
    /// Whether it was told what it means that saves fail, since one last succeeded.
    is_warned: bool,
    disk: u64,
    starts: u64,
}

impl WrappedFiles {
    /// Nothing was fetched or started yet.
    pub fn new(rt: HostRuntime) -> WrappedFiles {
        WrappedFiles {
            rt,
            console: StandardConsole::new(rt),
            child: None,
            mode: PRIVATE,
            state: String::new(rt.alloc()),
            made: None,
            has_copy: false,
            is_warned: false,
            disk: 0,
            starts: 0,
        }
    }

    /// Counts a fault of a file, and tells it.
    fn failed(&mut self, path: &str, error: io::Error) -> Failure
        ensures counted { CountsFault self.old.disk self.new.disk }
        ensures refusal { result ≡ HasFailed }
        ensures console { self.new.console ≡ self.old.console }
        ensures starts { self.new.starts ≡ self.old.starts }
    {
        let _ = eprintln!(self.rt; "smwrap: cannot use {path}: {error}");
        self.disk = self.disk.saturating_add(1);
        Failure::Failed
    }

    /// Makes a copy of a file, with this number.
    fn make(&self, source: &str, number: u32) -> io::Result<String> {
        let copy = copy_of(self.rt, self.state.as_str(), number)?;
        let found = read_whole(self.rt, source)?;
        create(self.rt, copy.as_str(), found.bytes.as_slice(), found.mode)?;
        Ok(copy)
    }

    /// Tells that the copy is gone that was asked for, where one was.
    fn say_made(&self, from: u32) {
        if from > 0 {
            let state = self.state.as_str();
            let _ = eprintln!(self.rt;
                "smwrap: {state}.{from} is gone: the program begins with {state} as it is"
            );
        }
    }

    /// Tells that there is nothing to begin with.
    fn say_anew(&self, from: u32) {
        let state = self.state.as_str();
        let _ = eprintln!(self.rt;
            "smwrap: there is neither {state}.{from} nor a file that can be copied: the program begins without"
        );
    }

    /// Makes the copy with which a run begins, where there has to be another one.
    fn make_beginning(&mut self, from: u32, beginning: Beginning) -> io::Result<u32> {
        match beginning {
            Beginning::AsAsked => Ok(from),
            Beginning::Behind(number) => {
                let source = copy_of(self.rt, self.state.as_str(), from)?;
                let copy = self.make(source.as_str(), number)?;
                self.made = Some(copy);
                Ok(number)
            }
            Beginning::FromFile(number) => {
                let copy = self.make(self.state.as_str(), number)?;
                self.say_made(from);
                if number != from {
                    self.made = Some(copy);
                }
                Ok(number)
            }
            Beginning::Anew => {
                self.say_anew(from);
                Ok(0)
            }
        }
    }

    /// Finds out with which copy a run begins that was asked to begin with this one, and makes it where that
    /// is needed. The answer is its number. Where that can't be done the run begins as it was asked to.
    pub fn begin(&mut self, state: &str, from: u32) -> u32 {
        self.has_copy = from > 0;
        match self.try_begin(state, from) {
            Ok(number) => number,
            Err(error) => {
                let _ = eprintln!(self.rt;
                    "smwrap: cannot look after the copies of {state}: {error}"
                );
                from
            }
        }
    }

    fn try_begin(&mut self, state: &str, from: u32) -> io::Result<u32> {
        self.state = state.to_string(self.rt.alloc())?;
        let beginning = begin(from, found(self.rt, state, from)?);
        self.make_beginning(from, beginning)
    }

    /// Puts a copy in the place of the state. What that had stays beside it, and standard error says so.
    fn put_back(&self, bytes: &[u8]) -> io::Result<()> {
        let state = self.state.as_str();
        if has_other(self.rt, state, bytes) {
            let kept = keep(self.rt, state)?;
            let _ = eprintln!(self.rt;
                "smwrap: {state} was not what was saved last: it is kept as {kept}"
            );
            let _ = forget_old(self.rt, state);
        }
        replace(self.rt, state, bytes, Some(self.mode))
    }

    /// Makes a new copy. One that was made only so that the run could begin goes then.
    fn put_copy(&mut self, path: &str, bytes: &[u8]) -> io::Result<()>
        ensures console { self.new.console ≡ self.old.console }
        ensures disk { self.new.disk ≡ self.old.disk }
        ensures starts { self.new.starts ≡ self.old.starts }
    {
        create(self.rt, path, bytes, self.mode)?;
        if let Some(made) = self.made.take() {
            let _ = fs::remove_file(&self.rt, made.as_str());
        }
        self.has_copy = true;
        self.is_warned = false;
        Ok(())
    }

    /// Tells what it means for the next login that a save failed.
    fn say_unsaved(&self) {
        let state = self.state.as_str();
        if self.has_copy {
            let _ = eprintln!(self.rt;
                "smwrap: the next login begins with what was saved before, and keeps beside it what {state} has then"
            );
        } else {
            let _ = eprintln!(self.rt;
                "smwrap: nothing was saved yet: the next login doesn't start the program, and {state} stays as it is"
            );
        }
    }

    /// The same once, where saves fail one after another. Before the program is started nothing is saved.
    fn warn(&mut self)
        ensures console { self.new.console ≡ self.old.console }
        ensures disk { self.new.disk ≡ self.old.disk }
        ensures starts { self.new.starts ≡ self.old.starts }
    {
        if self.child.is_some() && !self.is_warned {
            self.is_warned = true;
            self.say_unsaved();
        }
    }

    /// Tells the user that a program can't be started.
    fn report(&self, command: &Command) {
        let name = Readable::program_of(self.rt.alloc(), command);
        let _ = eprintln!(self.rt; "smwrap: cannot start {}", name.as_str());
    }
}

impl Told for WrappedFiles {
    ghost outside = { wrapped_outside };
}

impl Files for WrappedFiles {
    ghost use Rattle.std.specs.Prelude.{None};

    ghost fetched = { λ files. None };

    fn fetch(&mut self, path: &str) -> Result<Octets, Failure> {
        match read_whole(self.rt, path) {
            Ok(found) => {
                self.mode = found.mode;
                Ok(Octets::from_vec(found.bytes))
            }
            Err(error) if error.kind() == ErrorKind::OutOfMemory => Err(Failure::NoMemory),
            Err(error) => {
                self.warn();
                Err(self.failed(path, error))
            }
        }
    }

    fn publish(&mut self, path: &str, bytes: &[u8]) -> Result<(), Failure> {
        let published = if path == self.state.as_str() {
            self.put_back(bytes)
        } else {
            self.put_copy(path, bytes)
        };
        match published {
            Ok(()) => Ok(()),
            Err(error) if error.kind() == ErrorKind::OutOfMemory => Err(Failure::NoMemory),
            Err(error) => {
                self.warn();
                Err(self.failed(path, error))
            }
        }
    }
}

impl Spawner for WrappedFiles {
    fn start(&mut self, command: &Command) -> Result<bool, NoMemory> {
        match start(self.rt, command) {
            Ok(child) => {
                self.child = Some(child);
                Ok(true)
            }
            Err(error) if error.kind() == ErrorKind::OutOfMemory => Err(NoMemory),
            Err(_) => {
                self.starts = self.starts.saturating_add(1);
                self.report(command);
                Ok(false)
            }
        }
    }
}

impl Console for WrappedFiles {
    fn read(&mut self, into: &mut [u8]) -> Result<usize, Failure> {
        self.console.read(into)
    }

    fn print(&mut self, bytes: &[u8]) -> Result<(), Failure> {
        self.console.print(bytes)
    }
}
