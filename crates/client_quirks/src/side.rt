ghost use Rattle.std.specs.Prelude.{◌≡◌, ◌∷◌, [], Some, IfOk, IfSome, OnOk, IsTrue};
ghost use Rattle.frame_speech.specs.Passing.{as_frame, from};
ghost use Rattle.client_quirks.specs.Sides.{new_frames, held_of, is_between, alone_of, IsSide, CutsOn, GoesBy};

use frame_speech::{Cutting, FrameCutter, Heeds, Speech};
use ice_framing::WholeFrameList;
use ice_values::Endian;
use owned_lists::NoMemory;
use std::alloc::Global;

/// One party's stream, as it is cut and understood.
#[derive(Debug, Drop)]
pub struct Side {
    cutter: Option<FrameCutter>,
    pub speech: Speech,
}

/// The order of the next frame, where a stream goes on and stands between two frames.
pub fn next_order(cutter: &Option<FrameCutter>) -> Option<Endian>
    ensures { IfSome result (λ e. cutter.now ≡ Some (from e [])) }
{
    match cutter {
        Some(cutter) => cutter.between(),
        None => None,
    }
}

fn is_same(one: Endian, other: Endian) -> bool
    ensures { IsTrue result → one ≡ other }
{
    match one {
        Endian::Lsb => match other {
            Endian::Lsb => true,
            Endian::Msb => false,
        },
        Endian::Msb => match other {
            Endian::Lsb => false,
            Endian::Msb => true,
        },
    }
}

impl Side {
    /// Before the first byte.
    pub fn new(alloc: Global) -> Side
        ensures { IsSide [] result }
    {
        Side {
            cutter: Some(FrameCutter::new(alloc)),
            speech: Speech::Silent,
        }
    }

    /// How many bytes came behind the last whole frame.
    pub fn held(&self) -> usize
        ensures { result ≡ held_of self.now.cutter }
    {
        match &self.cutter {
            Some(cutter) => cutter.held(),
            None => 0,
        }
    }

    /// Whether the stream goes on, and stands between two frames.
    pub fn is_between(&self) -> bool
        ensures { result ≡ is_between self.now.cutter }
    {
        match &self.cutter {
            Some(cutter) => cutter.held() == 0,
            None => false,
        }
    }

    /// The order of the next frame, where the stream goes on and stands between two frames.
    pub fn order(&self) -> Option<Endian>
        ensures { IfSome result (λ e. self.now.cutter ≡ Some (from e [])) }
    {
        next_order(&self.cutter)
    }

    /// Whether the stream goes on, and stands between two frames of this order.
    pub fn stands_in(&self, order: Endian) -> bool
        ensures { IsTrue result → self.now.cutter ≡ Some (from order []) }
    {
        match self.order() {
            Some(own) => is_same(own, order),
            None => false,
        }
    }

    /// Whether a piece is whole frames, none of which is heeded, and comes between two frames, or
    /// nothing is cut any more. Then it needn't be taken.
    pub fn passes<H: Heeds>(&self, heeds: &H, piece: &[u8]) -> bool
        ensures { IsTrue result
            → GoesBy (H.ignores heeds.now) self.now.cutter piece.now }
    {
        match &self.cutter {
            Some(cutter) => cutter.passes(heeds, piece),
            None => true,
        }
    }

    /// The order of a piece that is one whole frame, which comes between two frames.
    pub fn alone(&self, piece: &[u8]) -> Option<Endian>
        ensures is { result ≡ alone_of self.now.cutter piece.now }
        ensures frames { IfSome result (λ e. new_frames self.now.cutter piece.now
            ≡ as_frame e piece.now ∷ []) }
    {
        match &self.cutter {
            Some(cutter) => cutter.alone(piece),
            None => None,
        }
    }

    /// The frames that a piece makes whole; none behind a header that states too much.
    pub fn take(&mut self, alloc: Global, piece: &[u8]) -> Result<WholeFrameList, NoMemory>
        ensures frames { IfOk result (λ frames. frames ≡ new_frames self.old.cutter piece.now) }
        ensures rest { OnOk result (CutsOn self.old.cutter piece.now self.new.cutter) }
        ensures speech { self.new.speech ≡ self.old.speech }
    {
        let Some(cutter) = self.cutter.take() else {
            return Ok(WholeFrameList::new(alloc));
        };
        let cutting = cutter.cut(alloc, piece)?;
        let Cutting { frames, rest } = cutting;
        self.cutter = rest;
        Ok(frames)
    }
}
