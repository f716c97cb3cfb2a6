ghost use Rattle.std.specs.Prelude.{◌≡◌, ◌++◌, ℕ, List, [], OnOk};
ghost use Rattle.std.specs.List.{list_any};
ghost use Rattle.stream_watch.specs.Watching.{Follows, is_connection_reply as lets_in, is_die as tells_to_die, IsNoTurn};

use frame_speech::{CutStream, Heeds, byte_at};
use ice_framing::WholeFrame;
use ice_values::Endian;
use owned_lists::NoMemory;
use std::alloc::Global;

fn is_connection_reply(frame: &WholeFrame) -> bool
    ensures { result ≡ lets_in frame.now }
{
    let bytes = frame.bytes.as_slice();
    byte_at(bytes, 0) == 0 && byte_at(bytes, 1) == 6
}

fn is_die(frame: &WholeFrame) -> bool
    ensures { result ≡ tells_to_die frame.now }
{
    let bytes = frame.bytes.as_slice();
    byte_at(bytes, 0) != 0 && byte_at(bytes, 1) == 9
}

/// Looks for what lets a client in and what tells it to die.
struct Turns;

impl Heeds for Turns {
    ghost ignores = { λ turns frame. IsNoTurn frame };

    fn heeds(&self, _endian: Endian, frame: &[u8]) -> bool {
        let major = byte_at(frame, 0);
        let minor = byte_at(frame, 1);
        (major == 0 && minor == 6) || (major != 0 && minor == 9)
    }
}

fn have_connection_reply(frames: &[WholeFrame]) -> bool
    ensures { result ≡ list_any lets_in frames.now }
{
    frames.iter().any(|frame| is_connection_reply(frame))
}

fn have_die(frames: &[WholeFrame]) -> bool
    ensures { result ≡ list_any tells_to_die frames.now }
{
    frames.iter().any(|frame| is_die(frame))
}

/// What is seen of a connection by following what the manager sends on it.
#[derive(Debug, Drop)]
pub struct Watch {
    alloc: Global,
    sent: CutStream,
    let_in: bool,
    told_to_die: bool,
}

impl Watch {
    /// Nothing was sent yet; this takes no memory.
    pub fn new(alloc: Global) -> Watch
        ensures { Follows [] result }
    {
        Watch {
            alloc,
            sent: CutStream::new(alloc),
            let_in: false,
            told_to_die: false,
        }
    }

    /// Follows these bytes, which the manager sends. After NoMemory nothing more is followed.
    pub fn follow(&mut self, bytes: &[u8]) -> Result<(), NoMemory>
        ensures { OnOk result ((sent : List ℕ) → Follows sent self.old →
            Follows (sent ++ bytes.now) self.new) }
    {
        if self.sent.passes(&Turns, bytes) {
            return Ok(());
        }
        let frames = self.sent.take(self.alloc, bytes)?;
        let let_in = have_connection_reply(frames.as_slice());
        let told_to_die = have_die(frames.as_slice());
        self.let_in = self.let_in || let_in;
        self.told_to_die = self.told_to_die || told_to_die;
        Ok(())
    }

    /// Whether the manager has let its client in: its set-up is through, so it has shown the cookie.
    pub fn is_let_in(&self) -> bool
        ensures { result ≡ self.now.let_in }
    {
        self.let_in
    }

    /// Whether the manager has told its client to die.
    pub fn is_told_to_die(&self) -> bool
        ensures { result ≡ self.now.told_to_die }
    {
        self.told_to_die
    }
}
