ghost use Rattle.std.specs.Prelude.{◌<◌, ◌≤◌, length, IfOk, IfSome};
ghost use Rattle.sm_world.specs.Events.{HasPieceSize};

use crate::follower::{Follower, Sending};
use crate::news::{Errand, News};
use client_quirks::StreamPiece;
use owned_lists::{CommandList, NoMemory, Octets};
use sm_world::{Conn, Event};
use std::alloc::Global;
use std::collections::VecDeque;

/// Who is connected, what is to be handed on of them, and what is to be done for them.
#[derive(Drop)]
pub struct Layer {
    alloc: Global,
    rows: Vec<Follower>,
    waiting: VecDeque<News>,
    errands: VecDeque<Errand>,
    /// Somebody may speak in the place of a client that has left.
    has_leavers: bool,
    /// Whether time alone may bring something, as it was asked last.
    waits: bool,
    /// What is known of somebody may have changed since then.
    has_changed: bool,
}

/// Has it shown whether a client was answered for, where that has changed.
fn excuse(row: &mut Follower, errands: &mut VecDeque<Errand>) -> Result<(), NoMemory> {
    if let Some(excused) = row.excuse() {
        errands.push_back(Errand::Excuse(row.conn, excused))?;
    }
    Ok(())
}

/// Lets so many milliseconds pass for each of these.
fn wait_all(
    rows: &mut Vec<Follower>,
    milliseconds: u64,
    waiting: &mut VecDeque<News>,
    errands: &mut VecDeque<Errand>,
) -> Result<(), NoMemory> {
    for row in rows {
        row.wait(milliseconds, waiting)?;
        row.settle();
        excuse(row, errands)?;
    }
    Ok(())
}

/// Has commands started for a client that has left.
fn add_starts(
    conn: Conn,
    started: CommandList,
    errands: &mut VecDeque<Errand>,
) -> Result<(), NoMemory> {
    for command in started.into_vec() {
        errands.push_back(Errand::Start(conn, command))?;
    }
    Ok(())
}

/// Hands on the ends of those that have left for good, each by its number.
fn let_go(rows: &mut Vec<Follower>, waiting: &mut VecDeque<News>) -> Result<(), NoMemory> {
    for row in rows.iter_mut() {
        if row.has_left() {
            row.release(waiting)?;
        }
    }
    rows.retain(|row| !row.is_gone());
    Ok(())
}

/// Where the client stands that has left, and has this ID.
fn leaver_of(rows: &[Follower], id: &[u8]) -> Option<usize>
    ensures { IfSome result (λ place. place < length rows.now) }
{
    rows.iter().position(|row| row.has_left_as(id))
}

/// Who has left, and registers by this piece of a client's.
fn returns(rows: &[Follower], place: usize, piece: &[u8]) -> Result<Option<usize>, NoMemory>
    requires { place < length rows.now }
    ensures { IfOk result (λ found. IfSome found (λ leaver. leaver < length rows.now)) }
{
    match rows[place].registers(piece)? {
        Some(id) => Ok(leaver_of(rows, id.as_slice())),
        None => Ok(None),
    }
}

/// Where the connection of a number stands. Mostly the numbers go on by one from the first.
fn place_of(rows: &[Follower], conn: Conn) -> Option<usize>
    ensures { IfSome result (λ place. place < length rows.now) }
{
    let first = rows.first()?;
    let place = conn.saturating_sub(first.conn) as usize;
    match rows.get(place) {
        Some(row) if row.conn == conn => Some(place),
        _ => rows.iter().position(|row| row.conn == conn),
    }
}

impl Layer {
    /// Nobody is connected yet.
    pub fn new(alloc: Global) -> Layer {
        Layer {
            alloc,
            rows: Vec::new(alloc),
            waiting: VecDeque::new(alloc),
            errands: VecDeque::new(alloc),
            has_leavers: false,
            waits: false,
            has_changed: false,
        }
    }

    /// Whether something is to be done or to be handed on before anything else is heard.
    pub fn has_more(&self) -> bool {
        !self.errands.is_empty() || !self.waiting.is_empty()
    }

    /// What is to be done next.
    pub fn next_errand(&mut self) -> Option<Errand> {
        self.errands.pop_front()
    }

    /// The next event that waits, if one does.
    pub fn waiting(&mut self) -> Option<Event>
        ensures size { IfSome result HasPieceSize }
    {
        match self.waiting.pop_front() {
            Some(news) => Some(news.into_event()),
            None => None,
        }
    }

    /// Nothing more is handed on or done of a connection, which is shut.
    pub fn shut(&mut self, conn: Conn) {
        self.forget(conn);
        self.waiting.retain(|news| news.conn() != conn);
        self.errands.retain(|errand| errand.conn() != conn);
    }

    fn forget(&mut self, conn: Conn) {
        self.has_changed = true;
        self.rows.retain(|row| row.conn != conn);
        self.has_leavers = self.rows.iter().any(|row| row.has_left());
    }

    /// Whether something may be handed on when its time has come.
    pub fn waits(&mut self) -> bool {
        if self.has_changed {
            self.has_changed = false;
            self.waits = self.rows.iter().any(|row| row.waits());
        }
        self.waits
    }

    /// Whether a client's piece is handed on as it came, and nothing else changes. By each one a client
    /// may come back while somebody speaks for one that has left.
    fn lets_piece_pass(&self, conn: Conn, piece: &[u8]) -> bool {
        if self.has_leavers {
            return false;
        }
        match place_of(&self.rows, conn) {
            Some(place) => self.rows[place].lets_pass(piece),
            None => true,
        }
    }

    /// Whether an event is handed on as it came, and nothing else changes.
    pub fn lets_pass(&self, event: &Event) -> bool {
        match event {
            Event::Piece(conn, bytes) => self.lets_piece_pass(*conn, bytes.as_slice()),
            Event::Operator(_) => true,
            Event::End => true,
            Event::Joined(_) => false,
            Event::Gone(_) => false,
            Event::Tick(_) => false,
        }
    }

    /// Whether what is sent on a connection goes out as it is, and nothing else changes.
    pub fn sends_on(&self, conn: Conn, bytes: &[u8]) -> bool {
        match place_of(&self.rows, conn) {
            Some(place) => self.rows[place].sends_on(bytes),
            None => true,
        }
    }

    /// The next event to hand on.
    pub fn next_waiting(&mut self) -> Event
        ensures size { HasPieceSize result }
    {
        match self.waiting() {
            Some(event) => event,
            None => Event::Tick(0),
        }
    }

    fn join(&mut self, conn: Conn) -> Result<(), NoMemory> {
        self.rows.push(Follower::new(self.alloc, conn))?;
        Ok(())
    }

    /// Has these bytes sent to a client next, if there are any.
    fn run_errand(&mut self, conn: Conn, bytes: Octets) -> Result<(), NoMemory> {
        if bytes.len() > 0 {
            self.errands.push_back(Errand::Send(conn, bytes))?;
        }
        Ok(())
    }

    fn wait(&mut self, milliseconds: u64) -> Result<(), NoMemory> {
        self.has_changed = true;
        wait_all(
            &mut self.rows,
            milliseconds,
            &mut self.waiting,
            &mut self.errands,
        )?;
        if self.has_leavers {
            let_go(&mut self.rows, &mut self.waiting)?;
        }
        Ok(())
    }

    /// Hands on the end of a client that has left, where another's piece registers it anew.
    fn return_by(&mut self, place: usize, piece: &[u8]) -> Result<(), NoMemory>
        requires { place < length self.old.rows.items }
    {
        if let Some(leaver) = returns(&self.rows, place, piece)? {
            let conn = self.rows[leaver].conn;
            self.rows[leaver].give_up(&mut self.waiting)?;
            self.forget(conn);
        }
        Ok(())
    }

    /// Hands on the end of a client that has left, where it comes back by this piece.
    fn let_return(&mut self, conn: Conn, piece: &[u8]) -> Result<(), NoMemory> {
        if !self.has_leavers {
            return Ok(());
        }
        match place_of(&self.rows, conn) {
            Some(place) => self.return_by(place, piece),
            None => Ok(()),
        }
    }

    /// What is handed on next once a piece came that goes on as it came.
    fn pass(&mut self, conn: Conn, bytes: Octets) -> Result<Event, NoMemory>
        requires some { 1 ≤ length bytes }
        requires within { length bytes ≤ 65536 }
        ensures size { IfOk result HasPieceSize }
    {
        if self.waiting.is_empty() {
            return Ok(Event::Piece(conn, bytes));
        }
        self.waiting
            .push_back(News::Piece(conn, StreamPiece::new(bytes)))?;
        Ok(self.next_waiting())
    }

    /// What is handed on next once a piece came; before that nothing waits.
    fn hear(&mut self, conn: Conn, bytes: Octets) -> Result<Event, NoMemory>
        requires some { 1 ≤ length bytes }
        requires within { length bytes ≤ 65536 }
        ensures size { IfOk result HasPieceSize }
    {
        self.let_return(conn, bytes.as_slice())?;
        match place_of(&self.rows, conn) {
            Some(place) => {
                if self.has_leavers && self.rows[place].lets_pass(bytes.as_slice()) {
                    return self.pass(conn, bytes);
                }
                self.has_changed = true;
                let going = self.rows[place].hear(StreamPiece::new(bytes), &mut self.waiting)?;
                self.has_leavers = self.has_leavers || self.rows[place].has_left();
                self.rows[place].settle();
                excuse(&mut self.rows[place], &mut self.errands)?;
                self.run_errand(conn, going)?;
                Ok(self.next_waiting())
            }
            None => Ok(Event::Piece(conn, bytes)),
        }
    }

    fn end(&mut self, conn: Conn) -> Result<(), NoMemory> {
        self.has_changed = true;
        match place_of(&self.rows, conn) {
            Some(place) => {
                if self.rows[place].end(&mut self.waiting)? {
                    self.forget(conn);
                } else {
                    self.has_leavers = self.has_leavers || self.rows[place].has_left();
                }
                Ok(())
            }
            None => {
                self.waiting.push_back(News::Gone(conn))?;
                Ok(())
            }
        }
    }

    /// Hears what is sent to a client that has left: nothing goes out.
    fn tell_leaver(&mut self, place: usize, bytes: &[u8]) -> Result<Sending, NoMemory>
        requires { place < length self.old.rows.items }
    {
        let conn = self.rows[place].conn;
        let started = self.rows[place].tell_leaver(bytes, &mut self.waiting)?;
        add_starts(conn, started, &mut self.errands)?;
        if self.rows[place].release(&mut self.waiting)? {
            self.forget(conn);
        }
        Ok(Sending::Nothing)
    }

    /// Hears what is sent on a connection, and gives what goes out.
    pub fn tell(&mut self, conn: Conn, bytes: &[u8]) -> Result<Sending, NoMemory> {
        self.has_changed = true;
        match place_of(&self.rows, conn) {
            Some(place) => {
                if self.rows[place].has_left() {
                    return self.tell_leaver(place, bytes);
                }
                let sending = self.rows[place].tell(bytes, &mut self.waiting)?;
                self.rows[place].settle();
                excuse(&mut self.rows[place], &mut self.errands)?;
                // What goes out as it is goes to a client of which nothing is held back.
                if !sending.is_as_it_is() && self.rows[place].release(&mut self.waiting)? {
                    self.forget(conn);
                }
                Ok(sending)
            }
            None => Ok(Sending::AsItIs),
        }
    }

    /// What is handed on of an event.
    pub fn hand_on(&mut self, event: Event) -> Result<Event, NoMemory>
        requires { HasPieceSize event }
        ensures size { IfOk result HasPieceSize }
    {
        match event {
            Event::Joined(conn) => {
                self.join(conn)?;
                Ok(Event::Joined(conn))
            }
            Event::Piece(conn, bytes) => self.hear(conn, bytes),
            Event::Gone(conn) => {
                self.end(conn)?;
                Ok(self.next_waiting())
            }
            Event::Operator(order) => Ok(Event::Operator(order)),
            Event::Tick(milliseconds) => {
                self.wait(milliseconds)?;
                Ok(Event::Tick(milliseconds))
            }
            Event::End => Ok(Event::End),
        }
    }
}
