ghost use Rattle.std.specs.Prelude.{◌≡◌, ◌-◌, [], length, flat_map, MatchOption, IfOk, IfSome, IsTrue};
ghost use Rattle.ice_framing.specs.Frames.{beginning, fed, cut, order_of, IsOversize};
ghost use Rattle.frame_speech.specs.Passing.{from, order_between, alone_in, ComesAlone, Passes};
ghost use Rattle.frame_speech.specs.Streams.{bytes_in, GoesOn};

use crate::passing::{Heeds, are_passed, is_alone};
use ice_framing::{Remainder, WholeFrame, WholeFrameList};
use ice_values::Endian;
use owned_lists::NoMemory;
use std::alloc::Global;
use std::marker::Model;

/// What came of a stream behind its last whole frame, and how much that is.
#[derive(Debug, Drop)]
pub struct FrameCutter {
    rest: Remainder,
    /// The order of the stream's numbers, once its first frame has come.
    order: Option<Endian>,
    held: usize,
}

impl Model for FrameCutter {
    ghost use Rattle.std.specs.Prelude.{◌≡◌, length};
    ghost use Rattle.ice_framing.specs.Frames.{Standing};

    ghost Value = { Standing };

    ghost view = { λ cutter. cutter.rest };

    ghost invariant = { λ cutter. (cutter.order ≡ cutter.rest.order)
        × (cutter.held ≡ length cutter.rest.held) };
}

/// What a piece brought.
#[derive(Debug, Drop)]
pub struct Cutting {
    /// The frames that it made whole.
    pub frames: WholeFrameList,
    /// The stream behind it; None behind a header that states too much.
    pub rest: Option<FrameCutter>,
}

/// The order that the first of a stream's frames states for all.
fn order_of(frames: &[WholeFrame]) -> Option<Endian>
    ensures { result ≡ order_of frames.now }
{
    match frames.first() {
        Some(frame) => Some(frame.endian),
        None => None,
    }
}

/// How many of so many bytes are left behind these frames.
fn left_behind(count: usize, frames: &[WholeFrame]) -> usize
    ensures { result ≡ count - length (bytes_in frames.now) }
{
    let mut left = count;
    for frame in frames {
        left = left.saturating_sub(frame.bytes.len());
    }
    left
}

impl FrameCutter {
    /// Before a stream's first byte; this takes no memory.
    pub fn new(alloc: Global) -> FrameCutter
        ensures { result ≡ beginning }
    {
        FrameCutter {
            rest: Remainder::new(alloc),
            order: None,
            held: 0,
        }
    }

    /// How many bytes came behind the last whole frame.
    pub fn held(&self) -> usize
        ensures { result ≡ length self.now.held }
    {
        self.held
    }

    /// The order of the next frame, where the stream stands between two frames.
    pub fn between(&self) -> Option<Endian>
        ensures is { result ≡ order_between self.now }
        ensures stands { IfSome result (λ e. self.now ≡ from e []) }
    {
        let endian = self.order?;
        if self.held == 0 { Some(endian) } else { None }
    }

    /// Whether a piece is whole frames, none of which is heeded, and comes between two frames.
    pub fn passes<H: Heeds>(&self, heeds: &H, piece: &[u8]) -> bool
        ensures { IsTrue result → Passes (H.ignores heeds.now) self.now piece.now }
    {
        match self.order {
            Some(endian) => self.held == 0 && are_passed(heeds, endian, piece),
            None => false,
        }
    }

    /// The order of a piece that is one whole frame, and comes between two frames.
    pub fn alone(&self, piece: &[u8]) -> Option<Endian>
        ensures is { result ≡ alone_in self.now piece.now }
        ensures comes { IfSome result (λ e. ComesAlone e piece.now self.now) }
    {
        let endian = self.order?;
        if self.held == 0 && is_alone(endian, piece) {
            Some(endian)
        } else {
            None
        }
    }

    /// Cuts one piece more.
    pub fn cut(self, alloc: Global, piece: &[u8]) -> Result<Cutting, NoMemory>
        ensures frames { IfOk result (λ cutting.
            cutting.frames ≡ (cut (fed self piece.now)).frames) }
        ensures rest { IfOk result (λ cutting.
            GoesOn (cut (fed self piece.now)).standing cutting.rest) }
        ensures goes { IfOk result (λ cutting.
            MatchOption cutting.rest (IsOversize (cut (fed self piece.now)).standing)
            (λ rest. rest ≡ (cut (fed self piece.now)).standing)) }
    {
        let FrameCutter { rest, order, held } = self;
        let Some(all) = held.checked_add(piece.len()) else {
            return Err(NoMemory);
        };
        let mut frames = WholeFrameList::new(alloc);
        let rest = rest.take(alloc, piece, &mut frames)?;
        let held = left_behind(all, frames.as_slice());
        let order = order.or(order_of(frames.as_slice()));
        match rest {
            Some(rest) => {
                let rest = Some(FrameCutter { rest, order, held });
                Ok(Cutting { frames, rest })
            }
            None => Ok(Cutting { frames, rest: None }),
        }
    }
}
