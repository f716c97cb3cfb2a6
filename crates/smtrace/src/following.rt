//! A record that is told while smd writes it.

use control_lines::{OrderRefusal, split_once};
use owned_lists::{NoMemory, Octets};
use program_frame::{StandardConsole, try_line, try_numbered};
use sm_world::Console;
use std::fs::{File, OpenOptions};
use std::io::{ErrorKind, Read};
use std::time::Duration;
use std::{fs, io, thread};
use trace_reading::Follower;

/// For how many milliseconds more of the record is waited for.
const PAUSE: u64 = 100;

/// Why the record is followed no longer, but for its end.
#[derive(Clone, Copy, Debug, PartialEq, Eq)]
enum Stop {
    Unreadable,
    /// This line, counted from 1, isn't of the grammar.
    Malformed(u64),
    Console,
    NoMemory,
}

impl From<NoMemory> for Stop {
    ghost from_gives = { λ _ _. Unit {0} };

    fn from(_error: NoMemory) -> Stop {
        Stop::NoMemory
    }
}

/// What was read of the record and not yet told.
#[derive(Drop)]
struct Progress {
    follower: Follower,
    /// The bytes behind the last newline.
    left: Octets,
    /// How many lines were told.
    number: u64,
}

/// The path in `read --follow PATH`.
pub fn followed(words: &[String]) -> Option<&str> {
    match words {
        [first, second, path] if first.as_str() == "read" && second.as_str() == "--follow" => {
            Some(path.as_str())
        }
        _ => None,
    }
}

/// Tells the next line, and says whether it was the last.
fn tell_line(
    rt: HostRuntime,
    console: &mut StandardConsole,
    progress: &mut Progress,
    line: &[u8],
) -> Result<bool, Stop> {
    let mut text = Octets::new(rt.alloc());
    progress.number = progress.number.saturating_add(1);
    match progress.follower.take(rt.alloc(), &mut text, line) {
        Ok(()) => {}
        Err(OrderRefusal::BadLine) => return Err(Stop::Malformed(progress.number)),
        Err(OrderRefusal::NoMemory) => return Err(Stop::NoMemory),
    }
    if text.len() > 0 {
        console.print(text.as_slice()).map_err(|_| Stop::Console)?;
    }
    Ok(line == b"end".as_slice())
}

/// Tells each whole line of a text, and keeps what stands behind the last newline.
fn tell_lines(
    rt: HostRuntime,
    console: &mut StandardConsole,
    progress: &mut Progress,
    text: &[u8],
) -> Result<bool, Stop> {
    let mut rest = text;
    // There are no more lines than bytes.
    for _ in 0..text.len() {
        let Some((line, behind)) = split_once(rest, b'\n') else {
            break;
        };
        if tell_line(rt, console, progress, line)? {
            return Ok(true);
        }
        rest = behind;
    }
    progress.left = Octets::from_slice(rt.alloc(), rest)?;
    Ok(false)
}

/// Room for what is read at once.
fn new_room(rt: HostRuntime) -> Result<Vec<u8>, NoMemory> {
    Ok(vec![in rt.alloc(); 0u8; 65_536]?)
}

/// Opens a file for reading.
fn open(rt: HostRuntime, path: &str) -> io::Result<File> {
    if fs::metadata(&rt, path)?.is_dir() {
        return Err(io::Error::new(ErrorKind::InvalidInput, "it is a folder"));
    }
    let mut how = OpenOptions::new();
    how.read(true);
    how.open(&rt, path)
}

/// Tells the record from its beginning to the line `end`, and waits for what isn't written yet.
fn tell_record(rt: HostRuntime, console: &mut StandardConsole, path: &str) -> Result<(), Stop> {
    let mut file = open(rt, path).map_err(|_| Stop::Unreadable)?;
    let mut room = new_room(rt)?;
    let mut progress = Progress {
        follower: Follower::new(rt.alloc()),
        left: Octets::new(rt.alloc()),
        number: 0,
    };
    for _ in 0..u64::MAX {
        let count = file
            .read(room.as_mut_slice())
            .map_err(|_| Stop::Unreadable)?;
        if count == 0 {
            thread::sleep(&rt, Duration::from_millis(PAUSE));
            continue;
        }
        let mut text = Octets::from_slice(rt.alloc(), progress.left.as_slice())?;
        let (read, _) = room.as_slice().split_at(count.min(room.len()));
        text.append(read)?;
        if tell_lines(rt, console, &mut progress, text.as_slice())? {
            return Ok(());
        }
    }
    Ok(())
}

/// Tells a record while it is written. The answer is the program's status.
pub fn follow(rt: HostRuntime, console: &mut StandardConsole, path: &str) -> u8 {
    match tell_record(rt, console, path) {
        Ok(()) => 0,
        Err(Stop::Unreadable) => {
            try_line(console, b"smtrace: can't read the record\n");
            6
        }
        Err(Stop::Malformed(at)) => {
            try_numbered(rt.alloc(), console, "malformed at ", at);
            3
        }
        Err(Stop::Console) => 6,
        Err(Stop::NoMemory) => {
            try_line(console, b"smtrace: no memory\n");
            10
        }
    }
}
