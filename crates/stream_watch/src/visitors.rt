ghost use Rattle.std.specs.Prelude.{◌≡◌, ◌==◌, ◌∷◌, [], ◌++◌, List, None, length, filter, find, option_copied, position, slice_get, OnOk};
ghost use Rattle.stream_watch.specs.Visiting.{Line, ShowAll, after_sent, without, is_strange, is_of, has_stayed, has_stayed_on, is_full, place_of_first, place_for_one_more, overdue as overdue_in, lingering as lingering_in, strangers};
ghost use Rattle.stream_watch.specs.declared.visitor.Visitor.{Visitor as AnyVisitor};

use crate::visitor::Visitor;
use owned_lists::NoMemory;
use sm_world::Conn;
use std::alloc::Global;
use std::marker::Model;

/// How many may be at the door at once who aren't let in.
const STRANGER_LIMIT: usize = 32;

/// How many connections the manager serves at once.
const LIVE_LIMIT: usize = 64;

/// How many milliseconds a stranger has before another takes its place.
const GRACE: u64 = 250;

/// Where one more finds a place.
#[derive(Clone, Copy, Debug, PartialEq, Eq)]
pub enum Place {
    /// Nobody makes way for it.
    Free,
    /// That of this stranger, who makes way.
    Of(Conn),
    /// Whoever could make way has just come.
    Later,
}

fn count_strangers(rows: &[Visitor]) -> usize
    ensures { result ≡ length (filter is_strange rows.now) }
{
    rows.iter().filter(|row| row.is_stranger()).count()
}

fn first_stranger(rows: &[Visitor]) -> Option<&Visitor>
    ensures { option_copied result ≡ find is_strange rows.now }
{
    rows.iter().find(|row| row.is_stranger())
}

fn first_overdue(rows: &[Visitor], now: u64) -> Option<&Visitor>
    ensures { option_copied result ≡ find (has_stayed now) rows.now }
{
    rows.iter().find(|row| row.has_overstayed(now))
}

fn first_lingering(rows: &[Visitor], now: u64, wait: u64) -> Option<&Visitor>
    ensures { option_copied result ≡ find (has_stayed_on now wait) rows.now }
{
    rows.iter().find(|row| row.has_lingered(now, wait))
}

/// Where the connection of a number stands.
fn place_of(rows: &[Visitor], conn: Conn) -> Option<usize>
    ensures { result ≡ position (λ (row : AnyVisitor). row.conn == conn) rows.now }
{
    rows.iter().position(|row| row.conn == conn)
}

/// Where the connection of a number stands, if the numbers go on by one from the first.
fn guess(rows: &[Visitor], conn: Conn) -> usize {
    match rows.first() {
        Some(first) => conn.saturating_sub(first.conn) as usize,
        None => 0,
    }
}

/// Whether the connection of a number stands at this place.
fn stands_at(rows: &[Visitor], place: usize, conn: Conn) -> bool
    ensures { result ≡ is_of conn (slice_get rows.now place) }
{
    match rows.get(place) {
        Some(row) => row.conn == conn,
        None => false,
    }
}

/// The live connections, in the order in which they came, and what was sent on each.
#[derive(Debug, Drop)]
pub struct Visitors {
    alloc: Global,
    rows: Vec<Visitor>,
    /// No number has come twice, so one that stands at a place stands nowhere else.
    each_once: bool,
}

impl Model for Visitors {
    ghost use Rattle.std.specs.Prelude.{◌≡◌, List, true};
    ghost use Rattle.stream_watch.specs.Visiting.{AreOnce, numbers};
    ghost use Rattle.stream_watch.specs.declared.visitor.Visitor.{Visitor};

    ghost Value = { List Visitor };

    ghost view = { λ visitors. visitors.rows.items };

    ghost invariant = { λ visitors.
        visitors.each_once ≡ true → AreOnce (numbers visitors.rows.items) };
}

impl Visitors {
    /// Nobody has come yet; this takes no memory.
    pub fn new(alloc: Global) -> Visitors
        ensures { ShowAll result [] }
    {
        Visitors {
            alloc,
            rows: Vec::new(alloc),
            each_once: true,
        }
    }

    /// Where the connection of a number stands.
    fn place_of(&self, conn: Conn) -> Option<usize>
        ensures { result ≡ position (λ (row : AnyVisitor). row.conn == conn) self.now }
    {
        let place = guess(&self.rows, conn);
        if self.each_once && stands_at(&self.rows, place, conn) {
            Some(place)
        } else {
            place_of(&self.rows, conn)
        }
    }

    /// A connection comes.
    pub fn join(&mut self, conn: Conn, now: u64) -> Result<(), NoMemory>
        ensures { OnOk result ((lines : List Line) → ShowAll self.old lines
            → ShowAll self.new (lines ++ record { number = conn; since = now; sent = []; told = None } ∷ [])) }
    {
        let is_new = place_of(&self.rows, conn).is_none();
        self.each_once &= is_new;
        self.rows.push(Visitor::new(self.alloc, conn, now))?;
        Ok(())
    }

    /// The manager sends these bytes on a connection.
    pub fn follow(&mut self, conn: Conn, now: u64, bytes: &[u8]) -> Result<(), NoMemory>
        ensures { OnOk result ((lines : List Line) → ShowAll self.old lines →
            ShowAll self.new (after_sent conn now bytes.now lines)) }
    {
        match self.place_of(conn) {
            Some(place) => self.rows[place].follow(now, bytes),
            None => Ok(()),
        }
    }

    /// A connection is closed.
    pub fn leave(&mut self, conn: Conn)
        ensures { (lines : List Line) → ShowAll self.old lines →
            ShowAll self.new (without conn lines) }
    {
        self.rows.retain(|row| row.conn != conn);
    }

    fn is_full(&self) -> bool
        ensures { (lines : List Line) → ShowAll self.now lines → result ≡ is_full lines }
    {
        count_strangers(&self.rows) >= STRANGER_LIMIT || self.rows.len() >= LIVE_LIMIT
    }

    /// Where somebody finds a place for whom a stranger has to make way, if there is one.
    pub fn place_of_first(&self, now: u64) -> Place
        ensures { (lines : List Line) → ShowAll self.now lines →
            result ≡ place_of_first now (strangers lines) }
    {
        match first_stranger(&self.rows) {
            Some(row) if now.saturating_sub(row.since) < GRACE => Place::Later,
            Some(row) => Place::Of(row.conn),
            None => Place::Free,
        }
    }

    /// Where one more finds a place.
    pub fn place_for_one_more(&self, now: u64) -> Place
        ensures { (lines : List Line) → ShowAll self.now lines →
            result ≡ place_for_one_more now lines }
    {
        if self.is_full() {
            self.place_of_first(now)
        } else {
            Place::Free
        }
    }

    /// The first who wasn't let in for ten seconds.
    pub fn overdue(&self, now: u64) -> Option<Conn>
        ensures { (lines : List Line) → ShowAll self.now lines →
            result ≡ overdue_in now lines }
    {
        match first_overdue(&self.rows, now) {
            Some(row) => Some(row.conn),
            None => None,
        }
    }

    /// The first whose client was told to die so many milliseconds ago, or before.
    pub fn lingering(&self, now: u64, wait: u64) -> Option<Conn>
        ensures { (lines : List Line) → ShowAll self.now lines →
            result ≡ lingering_in now wait lines }
    {
        match first_lingering(&self.rows, now, wait) {
            Some(row) => Some(row.conn),
            None => None,
        }
    }
}
