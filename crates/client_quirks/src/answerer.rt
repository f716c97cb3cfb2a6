ghost use Rattle.std.specs.Prelude.{◌≡◌, ◌∷◌, [], ℕ, true, false, IfOk, IfSome, OnOk, IsTrue};
ghost use Rattle.client_quirks.specs.Stood.{named_alone, Names};
ghost use Rattle.client_quirks.specs.Standing.{GivesOver, has_left, is_understood};
ghost use Rattle.std.specs.List.{concat};
ghost use Rattle.late_answers.specs.Late.{at_first, is_excused};
ghost use Rattle.client_quirks.specs.Sides.{IsSide};
ghost use Rattle.client_quirks.specs.Answering.{order_by as order_stated, waits_by, client_of, manager_of, HearsFrames, HandsOn, Hears, HearsPiece, TellsFrames, SendsOn, Tells, TellsBytes, passes_by, late_by, ended_by, AnswersNothingLate, OrdersNothing};

use crate::exchange::{Standpoint, hear_frames, tell_frames};
use crate::naming::name_in;
use crate::pieces::{PieceList, StreamPiece, add_bytes, alone};
use crate::side::Side;
use crate::stand_in::StandIn;
use crate::tongue::{Tongue, is_about, is_reply, is_speaking};
use frame_speech::{Heeds, Speech};
use ice_framing::WholeFrame;
use ice_values::Endian;
use late_answers::Late;
use owned_lists::{NoMemory, Octets};
use std::alloc::Global;
use std::mem;

/// Answers for a client whose logout was called off before it had answered, and takes away what it says
/// late.
#[derive(Debug, Drop)]
pub struct Answerer {
    alloc: Global,
    /// What the client says.
    pub(crate) came: Side,
    came_order: Endian,
    /// What the manager sends.
    pub(crate) sent: Side,
    sent_order: Endian,
    pub(crate) late: Late,
    /// Each piece of both was whole frames.
    pub(crate) follows: bool,
}

/// What a piece of either party's brings.
#[derive(Debug, Drop)]
pub struct Answering {
    /// What the manager hears.
    pub pieces: PieceList,
    /// What goes out to the client.
    pub going: Octets,
}

/// Who speaks in a client's place from now on.
#[derive(Debug, Drop)]
pub struct HandedOver {
    pub stand_in: StandIn,
    /// What the manager hears at once.
    pub pieces: PieceList,
}

/// Looks for what a client says of a save, and for its answers to Pings where some are awaited.
#[derive(Clone, Copy, Debug)]
struct Answers {
    speech: Speech,
    calm: bool,
    pinged: bool,
}

/// Looks for what the manager says of a save.
#[derive(Clone, Copy, Debug)]
pub struct Orders {
    pub speech: Speech,
    pub calm: bool,
}

impl Heeds for Answers {
    ghost ignores = { λ answers frame. AnswersNothingLate answers.calm
        answers.pinged answers.speech frame };

    fn heeds(&self, endian: Endian, frame: &[u8]) -> bool {
        let speech = self.speech;
        speech.may_turn(endian, frame)
            || is_about(self.calm, speech, frame)
            || self.pinged && is_reply(speech, frame)
    }
}

impl Heeds for Orders {
    ghost ignores = { λ orders frame. OrdersNothing orders.calm orders.speech frame };

    fn heeds(&self, endian: Endian, frame: &[u8]) -> bool {
        let speech = self.speech;
        speech.heeds(endian, frame) || is_about(self.calm, speech, frame)
    }
}

/// The order that these frames state, which are the first of their stream that are heard, or else this.
fn order_by(order: Endian, frames: &[WholeFrame]) -> Endian
    ensures { result ≡ order_stated order frames.now }
{
    match frames.first() {
        Some(frame) => frame.endian,
        None => order,
    }
}

/// These bytes as pieces; where they are this piece, it itself.
fn pieces_of(alloc: Global, piece: StreamPiece, bytes: &[u8]) -> Result<PieceList, NoMemory>
    ensures bytes { IfOk result (λ list. concat list ≡ bytes.now) }
    ensures as_came { IfOk result (λ list. bytes.now ≡ piece → list ≡ piece ∷ []) }
{
    if piece.as_slice() == bytes {
        return alone(alloc, piece);
    }
    let mut list = PieceList::new(alloc);
    add_bytes(alloc, bytes, &mut list)?;
    Ok(list)
}

impl Answerer {
    /// Before the first byte of either party.
    pub fn new(alloc: Global) -> Answerer
        ensures came { IsSide [] result.came }
        ensures sent { IsSide [] result.sent }
        ensures late { result.late ≡ at_first }
        ensures follows { result.follows ≡ true }
    {
        Answerer {
            alloc,
            came: Side::new(alloc),
            came_order: Endian::Lsb,
            sent: Side::new(alloc),
            sent_order: Endian::Lsb,
            late: Late::new(),
            follows: true,
        }
    }

    fn client(&self) -> Tongue
        ensures { result ≡ client_of self.now }
    {
        Tongue {
            speech: self.came.speech,
            order: self.came_order,
        }
    }

    fn manager(&self) -> Tongue
        ensures { result ≡ manager_of self.now }
    {
        Tongue {
            speech: self.sent.speech,
            order: self.sent_order,
        }
    }

    /// Whether the client was answered for, and nobody waits for it.
    pub fn is_excused(&self) -> bool
        ensures { result ≡ is_excused self.now.late }
    {
        self.late.is_excused()
    }

    /// The ID with which the client registers by a piece, which is its RegisterClient alone.
    pub fn registers(&self, piece: &[u8]) -> Result<Option<Octets>, NoMemory>
        ensures is { IfOk result (λ id. id ≡ named_alone 1 self.now.came piece.now) }
        ensures names { IfOk result (λ id. IfSome id (Names self.now.came piece.now)) }
    {
        name_in(self.alloc, &self.came, 1, piece)
    }

    /// The ID with which the manager registers the client by these bytes, which are its
    /// RegisterClientReply alone.
    pub fn registered(&self, bytes: &[u8]) -> Result<Option<Octets>, NoMemory>
        ensures is { IfOk result (λ id. id ≡ named_alone 2 self.now.sent bytes.now) }
        ensures names { IfOk result (λ id. IfSome id (Names self.now.sent bytes.now)) }
    {
        name_in(self.alloc, &self.sent, 2, bytes)
    }

    fn is_understood(&self) -> bool
        ensures { result ≡ is_understood self.now }
    {
        self.follows && is_speaking(self.came.speech) && is_speaking(self.sent.speech)
    }

    /// Whether the client has closed behind a logout that was called off, so that its end is to be held
    /// back.
    pub fn has_left(&self) -> bool
        ensures { result ≡ has_left self.now }
    {
        self.is_understood() && self.late.gone
    }

    /// Hears that the client's stream has ended.
    pub fn end(&mut self)
        ensures late { self.new.late ≡ ended_by self.old.follows self.old }
        ensures came { self.new.came ≡ self.old.came }
        ensures came_order { self.new.came_order ≡ self.old.came_order }
        ensures sent { self.new.sent ≡ self.old.sent }
        ensures sent_order { self.new.sent_order ≡ self.old.sent_order }
        ensures follows { self.new.follows ≡ self.old.follows }
    {
        if self.follows {
            self.late = self.late.closed();
        }
    }

    /// Gives who speaks in the client's place from now on, where both parties are understood. Nothing is
    /// answered or taken away any more then. After NoMemory nothing is known of the client any more.
    pub fn give_over(&mut self) -> Result<Option<HandedOver>, NoMemory>
        ensures { IfOk result (λ given. GivesOver self.old given self.new) }
    {
        if !self.is_understood() {
            return Ok(None);
        }
        self.follows = false;
        let client = self.client();
        let parting = self.late.parting();
        let mut handed = Octets::new(self.alloc);
        client.put_line(parting.line, &mut handed)?;
        let mut pieces = PieceList::new(self.alloc);
        add_bytes(self.alloc, handed.as_slice(), &mut pieces)?;
        let sent = mem::replace(&mut self.sent, Side::new(self.alloc));
        let stand_in = StandIn::new(self.alloc, sent, client, parting.leaver);
        Ok(Some(HandedOver { stand_in, pieces }))
    }

    /// Whether a piece of the client's is handed on as it came, nothing goes out and nothing else changes,
    /// so that it needn't be heard. This takes no memory.
    pub fn lets_pass(&self, piece: &[u8]) -> bool
        ensures { IsTrue result → Hears self.now piece.now (piece.now ∷ []) [] self.now }
    {
        if !self.follows {
            return true;
        }
        let answers = Answers {
            speech: self.came.speech,
            calm: self.late.is_calm(),
            pinged: self.late.pings > 0,
        };
        self.came.is_between() && self.came.passes(&answers, piece)
    }

    /// Hears frames of the client's, which a piece consists of.
    fn hear_whole(
        &mut self,
        piece: StreamPiece,
        frames: &[WholeFrame],
    ) -> Result<Answering, NoMemory>
        ensures { IfOk result (λ answering. HearsFrames self.old piece frames.now
            answering.pieces answering.going self.new) }
    {
        let manager = self.manager();
        let from = Standpoint {
            speech: self.came.speech,
            late: self.late,
        };
        let mut handed = Octets::new(self.alloc);
        let mut going = Octets::new(self.alloc);
        let at = hear_frames(self.alloc, manager, from, frames, &mut handed, &mut going)?;
        let pieces = pieces_of(self.alloc, piece, handed.as_slice())?;
        self.came.speech = at.speech;
        self.came_order = order_by(self.came_order, frames);
        self.late = at.late;
        Ok(Answering { pieces, going })
    }

    /// Hands a piece of the client's on as it came, as all behind it.
    fn hand_on(&mut self, piece: StreamPiece) -> Result<Answering, NoMemory>
        ensures on { IfOk result (λ answering. HandsOn self.old piece
            answering.pieces answering.going self.new) }
        ensures came { self.new.came ≡ self.old.came }
    {
        self.follows = false;
        let pieces = alone(self.alloc, piece)?;
        let going = Octets::new(self.alloc);
        Ok(Answering { pieces, going })
    }

    /// Hears a piece of the client's.
    pub fn hear(&mut self, piece: StreamPiece) -> Result<Answering, NoMemory>
        ensures { IfOk result (λ answering. HearsPiece self.old piece
            answering.pieces answering.going self.new) }
    {
        if !self.follows {
            return self.hand_on(piece);
        }
        if !self.came.is_between() {
            return self.hand_on(piece);
        }
        let frames = self.came.take(self.alloc, piece.as_slice())?;
        if self.came.is_between() {
            self.hear_whole(piece, frames.as_slice())
        } else {
            self.hand_on(piece)
        }
    }

    /// Whether these bytes of the manager's go out as they are, it hears nothing and nothing else changes,
    /// so that they needn't be told. This takes no memory.
    pub fn sends_on(&self, bytes: &[u8]) -> bool
        ensures { IsTrue result → Tells self.now bytes.now [] bytes.now self.now }
    {
        if !self.follows {
            return true;
        }
        let orders = Orders {
            speech: self.sent.speech,
            calm: self.late.is_calm(),
        };
        self.sent.is_between() && self.sent.passes(&orders, bytes)
    }

    /// Tells frames of the manager's.
    fn tell_whole(&mut self, frames: &[WholeFrame]) -> Result<Answering, NoMemory>
        ensures { IfOk result (λ answering. TellsFrames self.old frames.now
            answering.pieces answering.going self.new) }
    {
        let client = self.client();
        let from = Standpoint {
            speech: self.sent.speech,
            late: self.late,
        };
        let mut handed = Octets::new(self.alloc);
        let mut going = Octets::new(self.alloc);
        let at = tell_frames(self.alloc, client, from, frames, &mut handed, &mut going)?;
        let mut pieces = PieceList::new(self.alloc);
        add_bytes(self.alloc, handed.as_slice(), &mut pieces)?;
        self.sent.speech = at.speech;
        self.sent_order = order_by(self.sent_order, frames);
        self.late = at.late;
        Ok(Answering { pieces, going })
    }

    /// Sends bytes of the manager's on as they are, as all behind them.
    fn send_on(&mut self, bytes: &[u8]) -> Result<Answering, NoMemory>
        ensures on { IfOk result (λ answering. SendsOn self.old bytes.now
            answering.pieces answering.going self.new) }
        ensures sent { self.new.sent ≡ self.old.sent }
    {
        self.follows = false;
        let pieces = PieceList::new(self.alloc);
        let going = Octets::from_slice(self.alloc, bytes)?;
        Ok(Answering { pieces, going })
    }

    /// Hears what the manager sends to the client.
    pub fn tell(&mut self, bytes: &[u8]) -> Result<Answering, NoMemory>
        ensures { IfOk result (λ answering. TellsBytes self.old bytes.now
            answering.pieces answering.going self.new) }
    {
        if !self.follows {
            return self.send_on(bytes);
        }
        if !self.sent.is_between() {
            return self.send_on(bytes);
        }
        let frames = self.sent.take(self.alloc, bytes)?;
        if self.sent.is_between() {
            self.tell_whole(frames.as_slice())
        } else {
            self.send_on(bytes)
        }
    }

    /// Whether time alone may bring what the manager hears, or what becomes of the client's end.
    pub fn waits(&self) -> bool
        ensures is { result ≡ waits_by self.now }
        ensures still { result ≡ false → (milliseconds : ℕ) →
            passes_by self.now.follows milliseconds self.now ≡ [] }
    {
        self.follows && self.late.waits()
    }

    /// What the manager hears in the client's place as so many milliseconds pass.
    pub fn pass(&mut self, milliseconds: u64) -> Result<PieceList, NoMemory>
        ensures handed { IfOk result (λ list.
            concat list ≡ passes_by self.old.follows milliseconds self.old) }
        ensures late { OnOk result
            (self.new.late ≡ late_by self.old.follows milliseconds self.old) }
        ensures came { self.new.came ≡ self.old.came }
        ensures came_order { self.new.came_order ≡ self.old.came_order }
        ensures sent { self.new.sent ≡ self.old.sent }
        ensures sent_order { self.new.sent_order ≡ self.old.sent_order }
        ensures follows { self.new.follows ≡ self.old.follows }
    {
        let mut pieces = PieceList::new(self.alloc);
        if !self.follows {
            return Ok(pieces);
        }
        let outcome = self.late.passed(milliseconds);
        let mut handed = Octets::new(self.alloc);
        self.client().put_word(outcome.word, &mut handed)?;
        add_bytes(self.alloc, handed.as_slice(), &mut pieces)?;
        self.late = outcome.late;
        Ok(pieces)
    }
}
