ghost use Rattle.std.specs.Prelude.{◌≡◌, [], None, OnOk};
ghost use Rattle.stream_watch.specs.Visiting.{Line, Shows, sent_more, told_by, is_strange, has_stayed, has_stayed_on};

use crate::watch::Watch;
use owned_lists::NoMemory;
use sm_world::Conn;
use std::alloc::Global;

/// How many milliseconds somebody may stay who isn't let in.
const STRANGER_TIME: u64 = 10_000;

/// When a client was told to die, which is now where it hadn't been yet.
fn first_told(told: Option<u64>, now: u64, is_told: bool) -> Option<u64>
    ensures { result ≡ told_by told now is_told }
{
    match told {
        Some(told) => Some(told),
        None if is_told => Some(now),
        None => None,
    }
}

/// A live connection.
#[derive(Debug, Drop)]
pub struct Visitor {
    pub conn: Conn,
    /// When it came.
    pub since: u64,
    watch: Watch,
    /// When its client was told to die.
    told: Option<u64>,
}

impl Visitor {
    /// A connection that comes now; this takes no memory.
    pub fn new(alloc: Global, conn: Conn, now: u64) -> Visitor
        ensures { Shows result (record { number = conn; since = now; sent = []; told = None }) }
    {
        Visitor {
            conn,
            since: now,
            watch: Watch::new(alloc),
            told: None,
        }
    }

    /// Follows what is sent to it.
    pub fn follow(&mut self, now: u64, bytes: &[u8]) -> Result<(), NoMemory>
        ensures shows { OnOk result ((line : Line) → Shows self.old line →
            Shows self.new (sent_more now bytes.now line)) }
        ensures same { self.new.conn ≡ self.old.conn }
    {
        self.watch.follow(bytes)?;
        self.told = first_told(self.told, now, self.watch.is_told_to_die());
        Ok(())
    }

    /// Whether it wasn't let in yet.
    pub fn is_stranger(&self) -> bool
        ensures { result ≡ is_strange self.now }
    {
        !self.watch.is_let_in()
    }

    /// Whether it wasn't let in for ten seconds.
    pub fn has_overstayed(&self, now: u64) -> bool
        ensures { result ≡ has_stayed now self.now }
    {
        self.is_stranger() && now.saturating_sub(self.since) >= STRANGER_TIME
    }

    /// Whether its client was told to die so many milliseconds ago, or before.
    pub fn has_lingered(&self, now: u64, wait: u64) -> bool
        ensures { result ≡ has_stayed_on now wait self.now }
    {
        match self.told {
            Some(told) => now.saturating_sub(told) >= wait,
            None => false,
        }
    }
}
