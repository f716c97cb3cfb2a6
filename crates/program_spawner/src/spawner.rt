ghost use Rattle.std.specs.Prelude.{◌≡◌};
ghost use Rattle.program_spawner.specs.Untold.{spawner_outside};

use owned_lists::{Command, NoMemory, Octets};
use shown_text::shown_word;
use sm_world::{Spawner, Told};
use std::alloc::Global;
use std::env::VarError;
use std::io::ErrorKind;
use std::process::{Child, Stdio};
use std::{env, fs, io, process};

/// Where a program is started that has no other folder.
const ROOT: &str = "/";

/// Starts programs. That they are started is told to nobody; each that can't be is counted.
///
/// A program gets the inherited environment, the command's pairs over it, and SESSION_MANAGER and
/// ICEAUTHORITY over these. It reads nothing, and what it prints goes to standard error. Words, names
/// or values that aren't UTF-8 can't be given to it. Where its folder can't be entered, it is started
/// from HOME, which the user is told.
#[derive(Drop)]
pub struct ProgramSpawner {
    rt: HostRuntime,
    children: Vec<Child>,
    session_manager: String,
    authority: String,
    faults: u64,
}

/// These bytes as text.
fn text(bytes: &Octets) -> io::Result<&str> {
    str::from_utf8(bytes.as_slice()).map_err(|_| io::Error::from(ErrorKind::InvalidInput))
}

/// The system's command for a command.
pub fn prepared(alloc: Global, command: &Command) -> io::Result<process::Command> {
    let mut words = command.words.as_slice().iter();
    let Some(program) = words.next() else {
        return Err(io::Error::from(ErrorKind::InvalidInput));
    };
    let mut started = process::Command::new(alloc, text(program)?)?;
    for word in words {
        started.arg(text(word)?)?;
    }
    for pair in command.environment.as_slice() {
        started.env(text(&pair.0)?, text(&pair.1)?)?;
    }
    let directory = text(&command.directory)?;
    if !directory.is_empty() {
        started.current_dir(directory)?;
    }
    Ok(started)
}

/// Whether a folder can be entered.
fn can_enter(rt: HostRuntime, folder: &str) -> io::Result<bool> {
    let inside = format!(in rt.alloc(); "{folder}/.")?;
    Ok(fs::metadata(&rt, inside.as_str()).is_ok())
}

/// The folder that the variable HOME names, or the root, where there is none that can be entered.
fn home(rt: HostRuntime) -> io::Result<String> {
    match env::var(&rt, "HOME") {
        Ok(folder) => {
            if !folder.is_empty() && can_enter(rt, folder.as_str())? {
                return Ok(folder);
            }
        }
        Err(VarError::OutOfMemory) => return Err(io::Error::from(ErrorKind::OutOfMemory)),
        Err(_) => {}
    }
    Ok(ROOT.to_string(rt.alloc())?)
}

/// A word that people read.
#[derive(Drop)]
pub struct Readable(Octets);

impl Readable {
    /// These bytes as people read them, whatever a client made of them.
    pub fn word(alloc: Global, bytes: &[u8]) -> Readable {
        match shown_word(alloc, bytes) {
            Ok(shown) => Readable(shown),
            Err(NoMemory) => Readable(Octets::new(alloc)),
        }
    }

    /// The program of a command.
    pub fn program_of(alloc: Global, command: &Command) -> Readable {
        match command.words.as_slice().first() {
            Some(word) => Readable::word(alloc, word.as_slice()),
            None => Readable(Octets::new(alloc)),
        }
    }

    /// The text; a question mark where there is none, or was no memory for it.
    pub fn as_str(&self) -> &str {
        match text(&self.0) {
            Ok(text) if !text.is_empty() => text,
            _ => "?",
        }
    }
}

impl ProgramSpawner {
    /// Programs that are started know no manager and no authority file yet.
    pub fn new(rt: HostRuntime) -> ProgramSpawner {
        ProgramSpawner {
            rt,
            children: Vec::new(rt.alloc()),
            session_manager: String::new(rt.alloc()),
            authority: String::new(rt.alloc()),
            faults: 0,
        }
    }

    /// The value of SESSION_MANAGER for the programs that are started from here on.
    pub fn set_session_manager(&mut self, names: String)
        ensures untouched { spawner_outside self.new ≡ spawner_outside self.old }
    {
        self.session_manager = names;
    }

    /// The value of ICEAUTHORITY for the programs that are started from here on.
    pub fn set_authority(&mut self, path: String)
        ensures untouched { spawner_outside self.new ≡ spawner_outside self.old }
    {
        self.authority = path;
    }

    /// Takes leave of the programs that have ended.
    pub fn reap(&mut self)
        ensures untouched { spawner_outside self.new ≡ spawner_outside self.old }
    {
        self.children
            .retain_mut(|child| matches!(child.try_wait(), Ok(None)));
    }

    /// How many programs were started and had not ended when leave was last taken.
    pub fn running(&self) -> usize {
        self.children.len()
    }

    /// Has a program begin in HOME where its folder can't be entered.
    fn lead_home(&self, started: &mut process::Command, command: &Command) -> io::Result<()> {
        let folder = text(&command.directory)?;
        if folder.is_empty() || can_enter(self.rt, folder)? {
            return Ok(());
        }
        let home = home(self.rt)?;
        started.current_dir(home.as_str())?;
        let alloc = self.rt.alloc();
        let lost = Readable::word(alloc, folder.as_bytes());
        let name = Readable::program_of(alloc, command);
        let home = Readable::word(alloc, home.as_bytes());
        let _ = eprintln!(self.rt;
            "smd: cannot enter {}: {} starts in {}",
            lost.as_str(),
            name.as_str(),
            home.as_str()
        );
        Ok(())
    }

    fn try_start(&mut self, command: &Command) -> io::Result<()>
        ensures same { self.new.faults ≡ self.old.faults }
    {
        self.children.reserve(1)?;
        let mut started = prepared(self.rt.alloc(), command)?;
        self.lead_home(&mut started, command)?;
        started.env("SESSION_MANAGER", self.session_manager.as_str())?;
        started.env("ICEAUTHORITY", self.authority.as_str())?;
        started.stdin(Stdio::null());
        // Else its output would stand among the lines that are printed for the operator.
        started.stdout(Stdio::from(self.rt.stderr()));
        let child = started.spawn(&self.rt)?;
        self.children.push_reserved(child);
        Ok(())
    }

    /// Starts a program that was handed over before, as `start` does, but counts no fault where it can't:
    /// that it was handed over is told already. The user is told.
    pub fn start_later(&mut self, command: &Command) -> Result<bool, NoMemory>
        ensures untouched { spawner_outside self.new ≡ spawner_outside self.old }
    {
        let Err(error) = self.try_start(command) else {
            return Ok(true);
        };
        if error.kind() == ErrorKind::OutOfMemory {
            return Err(NoMemory);
        }
        self.report(command);
        Ok(false)
    }

    /// Tells the user that a program can't be started.
    fn report(&self, command: &Command) {
        let name = Readable::program_of(self.rt.alloc(), command);
        let _ = eprintln!(self.rt; "smd: cannot start {}", name.as_str());
    }
}

impl Told for ProgramSpawner {
    ghost outside = { spawner_outside };
}

impl Spawner for ProgramSpawner {
    fn start(&mut self, command: &Command) -> Result<bool, NoMemory> {
        match self.try_start(command) {
            Ok(()) => Ok(true),
            Err(error) if error.kind() == ErrorKind::OutOfMemory => Err(NoMemory),
            Err(_) => {
                self.faults = self.faults.saturating_add(1);
                self.report(command);
                Ok(false)
            }
        }
    }
}
