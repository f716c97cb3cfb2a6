use crate::news::News;
use client_quirks::{
    Amender, Answerer, Answering, HandedOver, Keeper, PieceList, Quiet, StandIn, Stood, StreamPiece,
};
use owned_lists::{CommandList, NoMemory, Octets};
use sm_world::Conn;
use std::alloc::Global;
use std::collections::VecDeque;

/// A live connection, with what its client is taken to mean. What the client says goes through the
/// amender, the answerer and the keeper, and what the manager sends through the other two.
#[derive(Debug, Drop)]
pub struct Follower {
    pub conn: Conn,
    alloc: Global,
    amender: Amender,
    answerer: Answerer,
    keeper: Keeper,
    /// How both parties speak, where the three above have nothing to do but with few frames: as they said
    /// behind the last thing that changed them.
    quiet: Option<Quiet>,
    /// The client was answered for, as it was told last.
    excused: bool,
    /// The ID that the client has, once it was told.
    id: Option<Octets>,
    /// Who speaks in the client's place, once its end is held back.
    stand_in: Option<StandIn>,
    /// Its end was handed on.
    is_gone: bool,
}

/// What goes out of bytes that the manager sends.
#[derive(Debug, Drop)]
pub enum Sending {
    /// They themselves.
    AsItIs,
    /// Others in their place.
    Anew(Octets),
    Nothing,
}

impl Sending {
    /// What goes out in the place of something else.
    fn anew(bytes: Octets) -> Sending {
        if bytes.len() == 0 {
            Sending::Nothing
        } else {
            Sending::Anew(bytes)
        }
    }

    pub fn is_as_it_is(&self) -> bool {
        match self {
            Sending::AsItIs => true,
            Sending::Anew(_) => false,
            Sending::Nothing => false,
        }
    }
}

/// Adds pieces of a connection to what is to be handed on.
fn add_pieces(conn: Conn, pieces: PieceList, waiting: &mut VecDeque<News>) -> Result<(), NoMemory> {
    for piece in pieces.into_vec() {
        waiting.push_back(News::Piece(conn, piece))?;
    }
    Ok(())
}

impl Follower {
    /// A connection that comes now.
    pub fn new(alloc: Global, conn: Conn) -> Follower {
        Follower {
            conn,
            alloc,
            amender: Amender::new(alloc),
            answerer: Answerer::new(alloc),
            keeper: Keeper::new(alloc),
            quiet: None,
            excused: false,
            id: None,
            stand_in: None,
            is_gone: false,
        }
    }

    /// Whether the client's end is held back, and it has this ID.
    pub fn has_left_as(&self, id: &[u8]) -> bool {
        match (&self.stand_in, &self.id) {
            (Some(_), Some(own)) => own.as_slice() == id,
            _ => false,
        }
    }

    /// Whether the client's end was handed on.
    pub fn is_gone(&self) -> bool {
        self.is_gone
    }

    /// Whether somebody speaks in the client's place.
    pub fn has_left(&self) -> bool {
        self.stand_in.is_some()
    }

    /// The ID with which the client registers by a piece.
    pub fn registers(&self, piece: &[u8]) -> Result<Option<Octets>, NoMemory> {
        self.answerer.registers(piece)
    }

    /// Has the client's end held back, where it closes behind a logout that was called off and it is known
    /// who it is.
    fn hold_end(&mut self) {
        if self.answerer.has_left() && self.id.is_some() {
            self.keeper.hold_end();
        }
    }

    /// Has somebody speak in the client's place from now on, where its end is held back and it is known
    /// who it is, and adds what the manager hears at once.
    fn begin_to_stand_in(&mut self, waiting: &mut VecDeque<News>) -> Result<(), NoMemory> {
        if !self.keeper.stage().is_kept() || self.stand_in.is_some() || self.id.is_none() {
            return Ok(());
        }
        let Some(handed_over) = self.answerer.give_over()? else {
            return Ok(());
        };
        let HandedOver { stand_in, pieces } = handed_over;
        self.stand_in = Some(stand_in);
        add_pieces(self.conn, pieces, waiting)
    }

    /// Hears pieces that the manager is to hear, and adds those that aren't held back.
    fn keep(&mut self, pieces: PieceList, waiting: &mut VecDeque<News>) -> Result<(), NoMemory> {
        for piece in pieces.into_vec() {
            let handed = self.keeper.hear(piece)?;
            add_pieces(self.conn, handed, waiting)?;
        }
        Ok(())
    }

    /// Hears a piece as it is meant, and gives what goes out to the client.
    fn answer(
        &mut self,
        piece: StreamPiece,
        waiting: &mut VecDeque<News>,
    ) -> Result<Octets, NoMemory> {
        let answering = self.answerer.hear(piece)?;
        let Answering { pieces, going } = answering;
        self.hold_end();
        self.keep(pieces, waiting)?;
        Ok(going)
    }

    /// Hears pieces as they are meant, and gives what goes out to the client.
    fn pass(
        &mut self,
        pieces: PieceList,
        waiting: &mut VecDeque<News>,
    ) -> Result<Octets, NoMemory> {
        let mut going = Octets::new(self.alloc);
        for piece in pieces.into_vec() {
            let more = self.answer(piece, waiting)?;
            going.append(more.as_slice())?;
        }
        Ok(going)
    }

    /// Whether a piece that came is handed on as it is, and nothing else changes.
    pub fn lets_pass(&self, piece: &[u8]) -> bool {
        match &self.quiet {
            Some(quiet) if quiet.lets_pass(piece) => true,
            _ => self.each_lets_pass(piece),
        }
    }

    /// Whether each of the three lets a piece pass.
    #[inline(never)]
    fn each_lets_pass(&self, piece: &[u8]) -> bool {
        self.amender.lets_pass(piece)
            && self.answerer.lets_pass(piece)
            && self.keeper.lets_pass(piece)
    }

    /// Whether bytes that the manager sends go out as they are, and nothing else changes.
    pub fn sends_on(&self, bytes: &[u8]) -> bool {
        match &self.quiet {
            Some(quiet) => quiet.sends_on(bytes),
            None => false,
        }
    }

    /// Asks the three anew whether they have anything to do.
    pub fn settle(&mut self) {
        self.quiet = Quiet::of(&self.amender, &self.answerer, &self.keeper);
    }

    /// Hears a piece that came, and gives what goes out to the client.
    pub fn hear(
        &mut self,
        piece: StreamPiece,
        waiting: &mut VecDeque<News>,
    ) -> Result<Octets, NoMemory> {
        self.quiet = None;
        let pieces = self.amender.take(piece)?;
        let going = self.pass(pieces, waiting)?;
        self.begin_to_stand_in(waiting)?;
        Ok(going)
    }

    /// Hears that the connection has ended; true where that is handed on.
    pub fn end(&mut self, waiting: &mut VecDeque<News>) -> Result<bool, NoMemory> {
        self.quiet = None;
        let pieces = self.amender.release();
        // Whatever would go out comes too late.
        self.pass(pieces, waiting)?;
        self.answerer.end();
        self.hold_end();
        let is_over = self.keeper.end();
        if is_over {
            waiting.push_back(News::Gone(self.conn))?;
            return Ok(true);
        }
        self.begin_to_stand_in(waiting)?;
        if let Some(stand_in) = &mut self.stand_in {
            stand_in.end();
        }
        Ok(false)
    }

    /// Hears what the manager sends to a client that has left, and adds what it hears and what is started.
    pub fn tell_leaver(
        &mut self,
        bytes: &[u8],
        waiting: &mut VecDeque<News>,
    ) -> Result<CommandList, NoMemory> {
        let Some(stand_in) = &mut self.stand_in else {
            return Ok(CommandList::new(self.alloc));
        };
        let stood = stand_in.tell(bytes)?;
        let Stood { pieces, started } = stood;
        add_pieces(self.conn, pieces, waiting)?;
        Ok(started)
    }

    /// Notes the ID that the client is told.
    fn note_id(&mut self, bytes: &[u8]) -> Result<(), NoMemory> {
        if let Some(id) = self.answerer.registered(bytes)? {
            self.id = Some(id);
        }
        Ok(())
    }

    /// Hears what the manager sends; nothing of it goes out while the client's end is held back.
    pub fn tell(
        &mut self,
        bytes: &[u8],
        waiting: &mut VecDeque<News>,
    ) -> Result<Sending, NoMemory> {
        self.quiet = None;
        let is_kept = self.keeper.stage().is_kept();
        self.keeper.tell(bytes)?;
        if is_kept {
            return Ok(Sending::Nothing);
        }
        if self.answerer.sends_on(bytes) {
            return Ok(Sending::AsItIs);
        }
        self.note_id(bytes)?;
        let answering = self.answerer.tell(bytes)?;
        let Answering { pieces, going } = answering;
        self.keep(pieces, waiting)?;
        Ok(Sending::anew(going))
    }

    /// Hears that so many milliseconds have passed.
    pub fn wait(
        &mut self,
        milliseconds: u64,
        waiting: &mut VecDeque<News>,
    ) -> Result<(), NoMemory> {
        self.quiet = None;
        if let Some(stand_in) = &mut self.stand_in {
            let pieces = stand_in.pass(milliseconds)?;
            return add_pieces(self.conn, pieces, waiting);
        }
        let pieces = self.answerer.pass(milliseconds)?;
        self.keep(pieces, waiting)
    }

    /// Whether time alone may bring something.
    pub fn waits(&self) -> bool {
        match &self.stand_in {
            Some(stand_in) => stand_in.waits(),
            None => self.answerer.waits(),
        }
    }

    /// Tells whether the client was answered for, where that has changed.
    pub fn excuse(&mut self) -> Option<bool> {
        let excused = self.answerer.is_excused();
        if excused == self.excused {
            return None;
        }
        self.excused = excused;
        Some(excused)
    }

    /// Whether nothing of the client is held back any more.
    fn is_over(&self) -> bool {
        match &self.stand_in {
            Some(stand_in) => stand_in.is_over(),
            None => !self.keeper.stage().is_kept(),
        }
    }

    /// Hands on what was held back of a client, if it is over; true where its end is among that.
    pub fn release(&mut self, waiting: &mut VecDeque<News>) -> Result<bool, NoMemory> {
        if self.is_over() {
            self.give_up(waiting)
        } else {
            Ok(false)
        }
    }

    /// Hands on what was held back of a client; true where its end is among that.
    pub fn give_up(&mut self, waiting: &mut VecDeque<News>) -> Result<bool, NoMemory> {
        if self.stand_in.take().is_some() {
            self.keeper.let_go();
        }
        let kept = self.keeper.release();
        let has_ended = kept.has_ended;
        add_pieces(self.conn, kept.pieces, waiting)?;
        if has_ended {
            waiting.push_back(News::Gone(self.conn))?;
        }
        self.is_gone = has_ended;
        self.settle();
        Ok(has_ended)
    }
}
