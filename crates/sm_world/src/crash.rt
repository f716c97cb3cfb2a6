ghost use Rattle.std.specs.Prelude.{◌≡◌, ◌||◌, ℕ, IfOk};
ghost use Rattle.sm_world.specs.Crash.{Cell, covers, settled, written, torn, synced, cell_after, cell_from};
ghost use Rattle.sm_world.specs.Choices.{Held, IsCrashFile, IsTracked, chosen_byte, held_after, held_from};

use crate::Effect;
use owned_lists::{NoMemory, Octets};
use std::alloc::Global;

/// What a crash leaves of a file where no sync has been.
#[derive(Clone, Copy, Debug, PartialEq, Eq)]
pub enum Choice {
    /// What was written. A write that failed wrote nothing.
    AsWritten,
    /// What the last sync left, or what stood there at the beginning where there was none.
    AsSynced,
    /// This byte wherever a crash may leave it, and elsewhere what the last sync left.
    Filled(u8),
}

/// One byte of a file on its way through the effects, for one byte that may fill it.
#[derive(Clone, Copy)]
pub struct Track {
    now: u8,
    synced: u8,
    /// A read may give any byte.
    any: bool,
    /// A crash may leave the byte that fills.
    fills: bool,
}

/// Whether the byte at `place` is one of the `count` from `at` on.
fn in_range(at: u64, count: u64, place: u64) -> bool
    ensures { result ≡ covers at count place }
{
    at <= place && place - at < count
}

/// Whether one of three facts is true.
fn is_any(first: bool, second: bool, third: bool) -> bool
    ensures { result ≡ (first || (second || third)) }
{
    first || second || third
}

impl Track {
    /// A byte that is on the disk.
    fn new(byte: u8, fill: u8) -> Track
        ensures { IsTracked fill (settled byte) (record { now = byte; synced = byte }) result }
    {
        Track {
            now: byte,
            synced: byte,
            any: false,
            fills: fill == byte,
        }
    }

    /// It was written, as one of `count`.
    fn wrote(self, count: usize, byte: u8, fill: u8) -> Track
        ensures { (cell : Cell) (held : Held) → IsTracked fill cell held self →
            IsTracked fill (written count byte cell) (record held { now = byte }) result }
    {
        let fills = is_any(count >= 2, self.fills, fill == byte);
        Track {
            now: byte,
            any: false,
            fills,
            ..self
        }
    }

    /// It was in the range of a failed write of `count` bytes.
    fn torn(self, count: u64) -> Track
        ensures { (fill : ℕ) (cell : Cell) (held : Held) → IsTracked fill cell held self →
            IsTracked fill (torn count cell) held result }
    {
        let fills = is_any(count >= 2, self.fills, false);
        Track {
            any: true,
            fills,
            ..self
        }
    }

    /// It was brought to the disk.
    fn synced(self, fill: u8) -> Track
        ensures { (cell : Cell) (held : Held) → IsTracked fill cell held self →
            IsTracked fill (synced cell) (record held { synced = held.now }) result }
    {
        let fills = is_any(self.any, fill == self.now, false);
        Track {
            synced: self.now,
            fills,
            ..self
        }
    }

    /// The byte at `place`, one effect later.
    fn after(self, effect: &Effect, place: u64, fill: u8) -> Track
        ensures { (cell : Cell) (held : Held) → IsTracked fill cell held self →
            IsTracked fill (cell_after effect.now place cell)
            (held_after effect.now place held) result }
    {
        match effect {
            Effect::Wrote(at, bytes) => {
                if !in_range(*at, bytes.len() as u64, place) {
                    return self;
                }
                let byte = bytes.as_slice()[(place - *at) as usize];
                self.wrote(bytes.len(), byte, fill)
            }
            Effect::Torn(at, count) => {
                if !in_range(*at, *count, place) {
                    return self;
                }
                self.torn(*count)
            }
            Effect::Synced => self.synced(fill),
            _ => self,
        }
    }

    /// The byte at `place` through all of these effects.
    fn through(self, effects: &[Effect], place: u64, fill: u8) -> Track
        ensures { (cell : Cell) (held : Held) → IsTracked fill cell held self →
            IsTracked fill (cell_from cell effects.now place)
            (held_from held effects.now place) result }
    {
        let mut track = self;
        for effect in effects {
            track = track.after(effect, place, fill);
        }
        track
    }
}

impl Choice {
    /// The byte that a crash leaves, in a file that began with `first`.
    fn pick(self, first: u8, effects: &[Effect], place: u64) -> u8
        ensures { result ≡ chosen_byte self (cell_from (settled first) effects.now place)
            (held_from (record { now = first; synced = first }) effects.now place) }
    {
        match self {
            Choice::AsWritten => Track::new(first, 0).through(effects, place, 0).now,
            Choice::AsSynced => Track::new(first, 0).through(effects, place, 0).synced,
            Choice::Filled(byte) => {
                let track = Track::new(first, byte).through(effects, place, byte);
                if track.fills {
                    return byte;
                }
                track.synced
            }
        }
    }
}

/// The file that a crash after these effects leaves by a choice, if it began with `first`.
pub fn crash_file(
    alloc: Global,
    first: &[u8],
    effects: &[Effect],
    choice: Choice,
) -> Result<Octets, NoMemory>
    ensures { IfOk result (IsCrashFile first.now effects.now choice) }
{
    let mut file = Vec::with_capacity(alloc, first.len())?;
    for byte in first {
        let place = file.len() as u64;
        file.push(choice.pick(*byte, effects, place))?;
    }
    Ok(Octets::from_vec(file))
}
