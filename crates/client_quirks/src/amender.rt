ghost use Rattle.std.specs.Prelude.{◌≡◌, ◌≤◌, ◌++◌, ◌∷◌, [], length, take, drop, IfOk, OnOk, IsTrue};
ghost use Rattle.client_quirks.specs.Amending.{Follows, Takes, Ends, RewritesFrames, left_open, is_within, between, held_within};

use crate::heeding::Meant;
use crate::pieces::{PieceList, StreamPiece, add_bytes, alone, joined};
use crate::speech::{add_frames, bytes_of};
use frame_speech::{Cutting, FrameCutter, Speech};
use ice_framing::WholeFrame;
use owned_lists::{NoMemory, Octets};
use std::alloc::Global;
use std::mem;

/// Hands on the pieces of a client's stream, with its properties as they are meant.
///
/// A piece that ends within a frame is held back until the frame is whole, and where nothing is
/// amended each is then handed on as it came.
#[derive(Debug, Drop)]
pub struct Amender {
    alloc: Global,
    /// None where the stream isn't followed any more.
    pub(crate) cutter: Option<FrameCutter>,
    pub(crate) speech: Speech,
    held: PieceList,
}

/// A stream that is lost is cut no more.
fn left_open(speech: Speech, rest: Option<FrameCutter>) -> Option<FrameCutter>
    ensures { result ≡ left_open speech rest }
{
    match speech {
        Speech::Silent => rest,
        Speech::Greeted => rest,
        Speech::Speaks(_) => rest,
        Speech::Lost => None,
    }
}

fn is_within(cutter: &Option<FrameCutter>) -> bool
    ensures { result ≡ is_within cutter.now }
{
    match cutter {
        Some(cutter) => cutter.held() != 0,
        None => false,
    }
}

/// Bytes of which some in the middle are spelled anew.
#[derive(Debug, Drop)]
struct Halves {
    /// The front, and what is spelled anew.
    handed: Octets,
    /// What stood behind that.
    left: Octets,
}

/// Puts what is spelled anew in place of so many bytes behind the front.
fn parted(
    alloc: Global,
    all: &[u8],
    front: usize,
    count: usize,
    anew: &[u8],
) -> Result<Halves, NoMemory>
    requires { front ≤ length all.now }
    ensures handed { IfOk result (λ halves. halves.handed ≡ take front all.now ++ anew.now) }
    ensures left { IfOk result (λ halves. halves.left ≡ drop count (drop front all.now)) }
{
    let (head, rest) = all.split_at(front);
    let (_, tail) = rest.split_at(count.min(rest.len()));
    let mut handed = Octets::from_slice(alloc, head)?;
    handed.append(anew)?;
    let left = Octets::from_slice(alloc, tail)?;
    Ok(Halves { handed, left })
}

impl Amender {
    /// Before the first byte of a stream.
    pub fn new(alloc: Global) -> Amender
        ensures { Follows [] [] result }
    {
        Amender {
            alloc,
            cutter: Some(FrameCutter::new(alloc)),
            speech: Speech::Silent,
            held: PieceList::new(alloc),
        }
    }

    /// Gives what is held back, as the stream has ended.
    pub fn release(&mut self) -> PieceList
        ensures whole { Ends self.old result }
        ensures all { result ≡ self.old.held }
        ensures none { self.new.held ≡ [] }
        ensures cutter { self.new.cutter ≡ self.old.cutter }
        ensures speech { self.new.speech ≡ self.old.speech }
    {
        mem::replace(&mut self.held, PieceList::new(self.alloc))
    }

    /// Holds a piece back, and gives what is held back where the stream stands between frames.
    fn keep(&mut self, piece: StreamPiece) -> Result<PieceList, NoMemory>
        ensures given { IfOk result (λ list.
            list ≡ between (is_within self.old.cutter) (self.old.held ++ piece ∷ [])) }
        ensures held { OnOk result
            (self.new.held ≡ held_within (is_within self.old.cutter) (self.old.held ++ piece ∷ [])) }
        ensures cutter { self.new.cutter ≡ self.old.cutter }
        ensures speech { self.new.speech ≡ self.old.speech }
    {
        self.held.push(piece)?;
        if is_within(&self.cutter) {
            Ok(PieceList::new(self.alloc))
        } else {
            Ok(self.release())
        }
    }

    /// Gives what was held back and the piece with these frames of them spelled anew, so far as the
    /// stream stands between frames; what is behind them is held back.
    fn rewrite(
        &mut self,
        before: usize,
        piece: &[u8],
        frames: &[WholeFrame],
        anew: &[u8],
    ) -> Result<PieceList, NoMemory>
        ensures rewrites { IfOk result (λ list.
            RewritesFrames before piece.now frames.now anew.now self.old list self.new) }
        ensures cutter { self.new.cutter ≡ self.old.cutter }
        ensures speech { self.new.speech ≡ self.old.speech }
    {
        let mut all = joined(self.alloc, self.held.as_slice())?;
        let front = all.len().saturating_sub(before);
        all.append(piece)?;
        let count = bytes_of(self.alloc, frames)?.len();
        let halves = parted(self.alloc, all.as_slice(), front, count, anew)?;
        let mut list = PieceList::new(self.alloc);
        add_bytes(self.alloc, halves.handed.as_slice(), &mut list)?;
        self.held = PieceList::new(self.alloc);
        if is_within(&self.cutter) {
            add_bytes(self.alloc, halves.left.as_slice(), &mut self.held)?;
        } else {
            add_bytes(self.alloc, halves.left.as_slice(), &mut list)?;
        }
        Ok(list)
    }

    /// Whether the next piece of the stream is handed on as it came, and nothing else changes, so that
    /// it needn't be taken. This takes no memory.
    pub fn lets_pass(&self, piece: &[u8]) -> bool
        ensures { IsTrue result → Takes self.now piece.now (piece.now ∷ []) self.now }
    {
        let meant = Meant {
            speech: self.speech,
        };
        match &self.cutter {
            Some(cutter) => cutter.passes(&meant, piece),
            None => true,
        }
    }

    /// Takes the next piece of the stream, and gives the pieces that are handed on. After NoMemory
    /// nothing is known of the stream any more.
    pub fn take(&mut self, piece: StreamPiece) -> Result<PieceList, NoMemory>
        ensures { IfOk result (λ list. Takes self.old piece list self.new) }
    {
        let Some(cutter) = self.cutter.take() else {
            return alone(self.alloc, piece);
        };
        let before = cutter.held();
        let cutting = cutter.cut(self.alloc, piece.as_slice())?;
        let Cutting { frames, rest } = cutting;
        let mut anew = Octets::new(self.alloc);
        let handed = add_frames(self.alloc, self.speech, frames.as_slice(), &mut anew)?;
        self.speech = handed.speech;
        self.cutter = left_open(handed.speech, rest);
        if handed.changed {
            self.rewrite(before, piece.as_slice(), frames.as_slice(), anew.as_slice())
        } else {
            self.keep(piece)
        }
    }
}
