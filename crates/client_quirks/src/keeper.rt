ghost use Rattle.std.specs.Prelude.{◌≡◌, ◌++◌, ◌∷◌, ◌≤◌, [], take, drop, length, true, false, not, ◌||◌, IfOk, OnOk, IsTrue};
ghost use Rattle.std.specs.List.{concat};
ghost use Rattle.client_quirks.specs.Sides.{IsSide, Follows};
ghost use Rattle.client_quirks.specs.Leaving.{mark, told_behind, told_by, heard_behind, front_count, is_kept, closing, holding, Hears, Listens, Keeps, GivesUp};
ghost use Rattle.client_quirks.specs.Heeding.{HasNothing};
ghost use Rattle.client_quirks.specs.declared.stage.Stage.TheVariants.{Free, Kept, Released};

use crate::heeding::{Heard, Told};
use crate::pieces::{PieceList, StreamPiece, add_bytes, alone};
use crate::side::Side;
use crate::speech::bytes_of;
use crate::stage::Stage;
use frame_speech::Speech;
use ice_framing::WholeFrame;
use owned_lists::NoMemory;
use std::alloc::Global;
use std::mem;

/// How many pieces of a client's stream are held back at most.
const KEPT_LIMIT: usize = 16;

/// Holds back the end of a client that has answered a logout and leaves before it is told to die.
#[derive(Debug, Drop)]
pub struct Keeper {
    alloc: Global,
    /// What the client says.
    pub(crate) came: Side,
    /// What the manager sends.
    pub(crate) sent: Side,
    pub(crate) stage: Stage,
    /// What is held back of the client's stream.
    pieces: PieceList,
    /// Its end is held back, too.
    has_ended: bool,
}

/// What was held back of a client that has left.
#[derive(Debug, Drop)]
pub struct KeptEnd {
    pub pieces: PieceList,
    /// The stream has ended behind them.
    pub has_ended: bool,
}

/// Where frames lead, and how many of them stand in front of the one with which the client closes.
#[derive(Clone, Copy, Debug)]
struct Walked {
    speech: Speech,
    stage: Stage,
    count: usize,
}

/// Goes over frames that the client says.
fn walk_heard(
    alloc: Global,
    speech: Speech,
    stage: Stage,
    frames: &[WholeFrame],
) -> Result<Walked, NoMemory>
    ensures speech { IfOk result (λ walked.
        walked.speech ≡ (heard_behind (mark speech stage) frames.now).speech) }
    ensures stage { IfOk result (λ walked.
        walked.stage ≡ (heard_behind (mark speech stage) frames.now).stage) }
    ensures count { IfOk result (λ walked.
        walked.count ≡ front_count (mark speech stage) frames.now) }
    ensures within { IfOk result (λ walked. walked.count ≤ length frames.now) }
{
    let mut walked = Walked {
        speech,
        stage,
        count: 0,
    };
    for frame in frames {
        let reading = walked.speech.reading(alloc, frame)?;
        let stage = walked.stage.heard(walked.speech, frame);
        let more = if stage.is_kept() { 0 } else { 1 };
        walked = Walked {
            speech: walked.speech.after(&reading),
            stage,
            count: more + walked.count,
        };
    }
    Ok(walked)
}

/// Goes over frames that the manager sends.
fn walk_told(
    alloc: Global,
    speech: Speech,
    stage: Stage,
    frames: &[WholeFrame],
) -> Result<Walked, NoMemory>
    ensures speech { IfOk result (λ walked.
        walked.speech ≡ (told_behind (mark speech stage) frames.now).speech) }
    ensures stage { IfOk result (λ walked.
        walked.stage ≡ (told_behind (mark speech stage) frames.now).stage) }
{
    let mut walked = Walked {
        speech,
        stage,
        count: 0,
    };
    for frame in frames {
        let reading = walked.speech.reading(alloc, frame)?;
        walked = Walked {
            speech: walked.speech.after(&reading),
            stage: walked.stage.told(walked.speech, frame),
            count: 0,
        };
    }
    Ok(walked)
}

impl Keeper {
    /// Before the first byte of either party.
    pub fn new(alloc: Global) -> Keeper
        ensures stage { result.stage ≡ Free }
        ensures pieces { result.pieces ≡ [] }
        ensures came { IsSide [] result.came }
        ensures sent { IsSide [] result.sent }
        ensures ended { result.has_ended ≡ false }
    {
        Keeper {
            alloc,
            came: Side::new(alloc),
            sent: Side::new(alloc),
            stage: Stage::Free,
            pieces: PieceList::new(alloc),
            has_ended: false,
        }
    }

    /// How far a logout has come for the client.
    pub fn stage(&self) -> Stage
        ensures { result ≡ self.now.stage }
    {
        self.stage
    }

    /// Hands on the front of a piece, and holds back what stands behind it.
    fn part(&mut self, piece: StreamPiece, front: usize) -> Result<PieceList, NoMemory>
        ensures front { IfOk result (λ list. concat list ≡ take front piece) }
        ensures back { OnOk result
            (concat self.new.pieces ≡ concat self.old.pieces ++ drop front piece) }
        ensures stage { self.new.stage ≡ self.old.stage }
        ensures came { self.new.came ≡ self.old.came }
        ensures sent { self.new.sent ≡ self.old.sent }
        ensures ended { self.new.has_ended ≡ self.old.has_ended }
    {
        let bytes = piece.as_slice();
        let (head, tail) = bytes.split_at(front.min(bytes.len()));
        let mut list = PieceList::new(self.alloc);
        add_bytes(self.alloc, head, &mut list)?;
        add_bytes(self.alloc, tail, &mut self.pieces)?;
        Ok(list)
    }

    /// Listens to a piece of the client's stream.
    fn listen(&mut self, piece: StreamPiece) -> Result<PieceList, NoMemory>
        ensures { IfOk result (λ list. Listens self.old piece list self.new) }
    {
        let held = self.came.held();
        let frames = self.came.take(self.alloc, piece.as_slice())?;
        let walked = walk_heard(self.alloc, self.came.speech, self.stage, frames.as_slice())?;
        self.came.speech = walked.speech;
        self.stage = walked.stage;
        if !walked.stage.is_kept() {
            return alone(self.alloc, piece);
        }
        let (before, _) = frames.as_slice().split_at(walked.count);
        let front = bytes_of(self.alloc, before)?.len();
        self.part(piece, front.saturating_sub(held))
    }

    /// Whether a piece has no frame that may change what is known of the client.
    fn has_nothing(&self, piece: &[u8]) -> bool
        ensures { IsTrue result → HasNothing self.now piece.now }
    {
        let heard = Heard {
            speech: self.came.speech,
            stage: self.stage,
        };
        self.came.passes(&heard, piece)
    }

    /// Whether a piece of the client's stream is handed on as it came, and nothing else changes, so
    /// that it needn't be heard. This takes no memory.
    pub fn lets_pass(&self, piece: &[u8]) -> bool
        ensures { IsTrue result → Hears self.now piece.now (piece.now ∷ []) self.now }
    {
        match self.stage {
            Stage::Kept => false,
            Stage::Released => true,
            Stage::Free => self.has_nothing(piece),
            Stage::Asked => self.has_nothing(piece),
            Stage::Answered => self.has_nothing(piece),
        }
    }

    /// Gives all that is held back and one piece more, and holds back nothing any more.
    fn give_up(&mut self, piece: StreamPiece) -> Result<PieceList, NoMemory>
        ensures { IfOk result (λ list. GivesUp self.old piece list self.new) }
    {
        self.stage = Stage::Released;
        let mut list = mem::replace(&mut self.pieces, PieceList::new(self.alloc));
        list.push(piece)?;
        Ok(list)
    }

    /// Holds a piece back, unless there are too many.
    fn keep(&mut self, piece: StreamPiece) -> Result<PieceList, NoMemory>
        requires { self.old.stage ≡ Kept }
        ensures { IfOk result (λ list. Keeps self.old piece list self.new) }
    {
        if self.pieces.as_slice().len() >= KEPT_LIMIT {
            return self.give_up(piece);
        }
        self.pieces.push(piece)?;
        Ok(PieceList::new(self.alloc))
    }

    /// Hears a piece of the client's stream, and gives the pieces that are handed on.
    pub fn hear(&mut self, piece: StreamPiece) -> Result<PieceList, NoMemory>
        ensures { IfOk result (λ list. Hears self.old piece list self.new) }
    {
        match self.stage {
            Stage::Kept => self.keep(piece),
            Stage::Released => alone(self.alloc, piece),
            Stage::Free => self.listen(piece),
            Stage::Asked => self.listen(piece),
            Stage::Answered => self.listen(piece),
        }
    }

    /// Holds back the client's end when it closes, as if it had answered a logout.
    pub fn hold_end(&mut self)
        ensures stage { self.new.stage ≡ holding self.old.stage }
        ensures pieces { self.new.pieces ≡ self.old.pieces }
        ensures ended { self.new.has_ended ≡ self.old.has_ended }
        ensures came { self.new.came ≡ self.old.came }
        ensures sent { self.new.sent ≡ self.old.sent }
    {
        self.stage = self.stage.holding();
    }

    /// Hears that the client's stream has ended, and says whether that is handed on.
    pub fn end(&mut self) -> bool
        ensures stage { self.new.stage ≡ closing self.old.stage }
        ensures handed { result ≡ not (is_kept (closing self.old.stage)) }
        ensures ended { self.new.has_ended
            ≡ (is_kept (closing self.old.stage) || self.old.has_ended) }
        ensures pieces { self.new.pieces ≡ self.old.pieces }
        ensures came { self.new.came ≡ self.old.came }
        ensures sent { self.new.sent ≡ self.old.sent }
    {
        self.stage = self.stage.closing();
        let is_kept = self.stage.is_kept();
        self.has_ended = is_kept || self.has_ended;
        !is_kept
    }

    /// Hears what the manager sends to the client.
    pub fn tell(&mut self, bytes: &[u8]) -> Result<(), NoMemory>
        ensures stage { OnOk result (self.new.stage ≡ (told_by self.old bytes.now).stage) }
        ensures speech { OnOk result (self.new.sent.speech ≡ (told_by self.old bytes.now).speech) }
        ensures sent { OnOk result (Follows self.old.sent bytes.now self.new.sent) }
        ensures came { self.new.came ≡ self.old.came }
        ensures pieces { self.new.pieces ≡ self.old.pieces }
        ensures ended { self.new.has_ended ≡ self.old.has_ended }
    {
        let told = Told {
            speech: self.sent.speech,
            stage: self.stage,
        };
        if self.sent.passes(&told, bytes) {
            return Ok(());
        }
        let frames = self.sent.take(self.alloc, bytes)?;
        let walked = walk_told(self.alloc, self.sent.speech, self.stage, frames.as_slice())?;
        self.sent.speech = walked.speech;
        self.stage = walked.stage;
        Ok(())
    }

    /// Holds nothing back any more that comes from now on.
    pub fn let_go(&mut self)
        ensures stage { self.new.stage ≡ Released }
        ensures pieces { self.new.pieces ≡ self.old.pieces }
        ensures ended { self.new.has_ended ≡ self.old.has_ended }
        ensures came { self.new.came ≡ self.old.came }
        ensures sent { self.new.sent ≡ self.old.sent }
    {
        self.stage = Stage::Released;
    }

    /// Gives all that is held back.
    pub fn release(&mut self) -> KeptEnd
        ensures pieces { result.pieces ≡ self.old.pieces }
        ensures ended { result.has_ended ≡ self.old.has_ended }
        ensures none { self.new.pieces ≡ [] }
        ensures over { self.new.has_ended ≡ false }
        ensures stage { self.new.stage ≡ self.old.stage }
        ensures came { self.new.came ≡ self.old.came }
        ensures sent { self.new.sent ≡ self.old.sent }
    {
        let has_ended = self.has_ended;
        self.has_ended = false;
        let pieces = mem::replace(&mut self.pieces, PieceList::new(self.alloc));
        KeptEnd { pieces, has_ended }
    }
}
