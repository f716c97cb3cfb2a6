ghost use Rattle.std.specs.Prelude.{◌≡◌, ◌++◌, ℕ, List, [], IfOk, IfSome, IsTrue};
ghost use Rattle.ice_framing.specs.Frames.{standing_of, is_oversize};
ghost use Rattle.frame_speech.specs.Streams.{IsAt, Cuts};
ghost use Rattle.frame_speech.specs.Passing.{IsAlone, PassesBy};

use crate::cutter::{Cutting, FrameCutter};
use crate::passing::Heeds;
use ice_framing::WholeFrameList;
use ice_values::Endian;
use owned_lists::NoMemory;
use std::alloc::Global;

/// How far one direction of a connection was cut into frames.
#[derive(Debug, Drop)]
pub struct CutStream {
    /// What came behind the last whole frame; None behind a header that states too much.
    rest: Option<FrameCutter>,
}

impl CutStream {
    /// Before its first byte; this takes no memory.
    pub fn new(alloc: Global) -> CutStream
        ensures { IsAt [] result }
    {
        CutStream {
            rest: Some(FrameCutter::new(alloc)),
        }
    }

    /// The frames that these bytes make whole. After NoMemory nothing more is cut.
    pub fn take(&mut self, alloc: Global, bytes: &[u8]) -> Result<WholeFrameList, NoMemory>
        ensures { IfOk result (λ frames. (stream : List ℕ) → IsAt stream self.old →
            Cuts stream bytes.now frames self.new) }
    {
        match self.rest.take() {
            Some(cutter) => {
                let cutting = cutter.cut(alloc, bytes)?;
                let Cutting { frames, rest } = cutting;
                self.rest = rest;
                Ok(frames)
            }
            None => Ok(WholeFrameList::new(alloc)),
        }
    }

    /// Whether these bytes are whole frames, none of which is heeded, and come between two frames, or
    /// nothing is cut any more. Then they needn't be taken.
    pub fn passes<H: Heeds>(&self, heeds: &H, bytes: &[u8]) -> bool
        ensures { IsTrue result → PassesBy (H.ignores heeds.now) bytes.now self.now }
    {
        match &self.rest {
            Some(cutter) => cutter.passes(heeds, bytes),
            None => true,
        }
    }

    /// The order of bytes that are one whole frame, and come between two frames. Then they needn't be
    /// taken.
    pub fn alone(&self, bytes: &[u8]) -> Option<Endian>
        ensures { IfSome result (λ e. IsAlone e bytes.now self.now) }
    {
        match &self.rest {
            Some(cutter) => cutter.alone(bytes),
            None => None,
        }
    }

    /// Whether a header stated too much, behind which nothing is cut.
    pub fn has_ended(&self) -> bool
        ensures { (stream : List ℕ) → IsAt stream self.now →
            result ≡ is_oversize (standing_of stream) }
    {
        self.rest.is_none()
    }
}
