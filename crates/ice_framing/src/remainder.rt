ghost use Rattle.std.specs.Prelude.{◌≡◌, ◌≤◌, ◌++◌, false, None, length, drop, IfOk, OnOk, MatchOption};
ghost use Rattle.ice_framing.specs.Frames.{beginning, fed, has_frame, uncut, behind, cut, IsOversize, StandsAt};

use crate::splitting::{UNIT_LIMIT, endian_of, units_of, whole_len};
use crate::{WholeFrame, WholeFrameList};
use ice_values::Endian;
use owned_lists::{NoMemory, Octets};
use std::alloc::Global;
use std::marker::Model;

/// What came of a stream behind its last whole frame. Where a splitter reserves the largest frame at
/// once, this takes memory as bytes come: it is for streams of which there may be very many.
#[derive(Debug, Drop)]
pub struct Remainder {
    order: Option<Endian>,
    held: Octets,
}

impl Model for Remainder {
    ghost use Rattle.ice_framing.specs.Frames.{Standing};

    ghost Value = { Standing };

    ghost view = { λ remainder. record { order = remainder.order; held = remainder.held } };
}

/// Frames were taken from the front of some bytes.
#[derive(Clone, Copy, Debug)]
struct Front {
    /// The order of the numbers behind them.
    order: Option<Endian>,
    /// How many bytes they have.
    taken: usize,
}

/// Adds the frames at the front of some bytes to the list.
fn take_frames(
    alloc: Global,
    order: Option<Endian>,
    bytes: &[u8],
    frames: &mut WholeFrameList,
) -> Result<Front, NoMemory>
    ensures cut { IfOk result (λ front. behind frames.new (uncut (record { order = front.order; held = drop front.taken bytes.now }))
        ≡ behind frames.old (cut (record { order = order; held = bytes.now }))) }
    ensures none { IfOk result (λ front.
        has_frame (record { order = front.order; held = drop front.taken bytes.now }) ≡ false) }
    ensures within { IfOk result (λ front. front.taken ≤ length bytes.now) }
{
    let mut order = order;
    let mut taken = 0;
    while let Some(len) = whole_len(order, &bytes[taken..]) {
        let rest = &bytes[taken..];
        let endian = endian_of(order, rest);
        let (frame, _) = rest.split_at(len);
        frames.push(WholeFrame {
            endian,
            bytes: Octets::from_slice(alloc, frame)?,
        })?;
        order = Some(endian);
        taken += len;
    }
    Ok(Front { order, taken })
}

impl Remainder {
    /// Before a stream's first byte; this takes no memory.
    pub fn new(alloc: Global) -> Remainder
        ensures { result ≡ beginning }
    {
        Remainder {
            order: None,
            held: Octets::new(alloc),
        }
    }

    /// Adds the frames that a piece makes whole to the list. None comes where a header states too much:
    /// the stream has ended there.
    pub fn take(
        self,
        alloc: Global,
        piece: &[u8],
        frames: &mut WholeFrameList,
    ) -> Result<Option<Remainder>, NoMemory>
        ensures frames { OnOk result
            (frames.new ≡ frames.old ++ (cut (fed self piece.now)).frames) }
        ensures stands { IfOk result (λ after. MatchOption after (IsOversize (cut (fed self piece.now)).standing)
            (λ rest. StandsAt (cut (fed self piece.now)).standing rest None)) }
    {
        let Remainder { order, mut held } = self;
        held.append(piece)?;
        let front = take_frames(alloc, order, held.as_slice(), frames)?;
        if front.taken > 0 {
            held = Octets::from_slice(alloc, &held.as_slice()[front.taken..])?;
        }
        if units_of(front.order, held.as_slice()) > UNIT_LIMIT {
            return Ok(None);
        }
        Ok(Some(Remainder {
            order: front.order,
            held,
        }))
    }
}
