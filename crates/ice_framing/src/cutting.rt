ghost use Rattle.std.specs.Prelude.{◌≡◌, ℕ, ◌≤◌, ◌++◌, List, IfOk, OnOk};
ghost use Rattle.std.specs.List.{concat};
ghost use Rattle.ice_framing.specs.Frames.{fed, units, IsPartial, behind, cut, frames_of, standing_of, StandsAt, EndsIn, IsMadeOf, unit_limit};

use crate::{Oversize, Splitter};
use ice_values::Endian;
use owned_lists::{ListOf, NoMemory, Octets};
use std::alloc::Global;

/// A frame in memory of its own, and the order of its numbers.
#[derive(Debug, Drop)]
pub struct WholeFrame {
    pub endian: Endian,
    pub bytes: Octets,
}

pub type WholeFrameList = ListOf<WholeFrame>;

/// Moves the frame that is held, if there is one, to the end of the list.
fn collect(
    alloc: Global,
    splitter: &mut Splitter,
    frames: &mut WholeFrameList,
) -> Result<(), NoMemory>
    requires { units splitter.old ≤ unit_limit }
    ensures partial { OnOk result (IsPartial splitter.new) }
    ensures within { OnOk result (units splitter.new ≤ unit_limit) }
    // The list and what will be cut behind it stay the same.
    ensures same { OnOk result ((more : List ℕ)
        → behind frames.new (cut (fed splitter.new more)) ≡ behind frames.old (cut (fed splitter.old more))) }
{
    let Some(frame) = splitter.next_frame() else {
        return Ok(());
    };
    frames.push(WholeFrame {
        endian: frame.endian,
        bytes: Octets::from_slice(alloc, frame.bytes)?,
    })?;
    splitter.take_frame();
    Ok(())
}

/// Adds the frames that a piece makes whole to the list, and answers with the header that states too
/// much, if one comes. Nothing may be fed after that, nor after NoMemory, where frames are lost.
pub fn cut_piece(
    alloc: Global,
    splitter: &mut Splitter,
    piece: &[u8],
    frames: &mut WholeFrameList,
) -> Result<Option<Oversize>, NoMemory>
    requires no_frame { IsPartial splitter.old }
    requires not_oversize { units splitter.old ≤ unit_limit }
    ensures frames { OnOk result
        (frames.new ≡ frames.old ++ (cut (fed splitter.old piece.now)).frames) }
    ensures stands { IfOk result (λ oversize.
        StandsAt (cut (fed splitter.old piece.now)).standing splitter.new oversize) }
{
    let mut rest = piece;
    while !rest.is_empty() {
        let taken = match splitter.feed(rest) {
            Ok(taken) => taken,
            Err(oversize) => return Ok(Some(oversize)),
        };
        let (_, left) = rest.split_at(taken);
        rest = left;
        collect(alloc, splitter, frames)?;
    }
    Ok(None)
}

/// Adds the frames of a whole stream, which comes in pieces, to the list, and answers with the header
/// that states too much, if one comes; what stands behind it isn't looked at.
pub fn cut_pieces(
    alloc: Global,
    pieces: &[Octets],
    frames: &mut WholeFrameList,
) -> Result<Option<Oversize>, NoMemory>
    // The frames are those of the stream, however it was cut, and so is its end.
    ensures frames { OnOk result (frames.new ≡ frames.old ++ frames_of (concat pieces.now)) }
    ensures end { IfOk result (λ oversize. EndsIn (standing_of (concat pieces.now)) oversize) }
    // What is meant by them: one behind the other they are the stream, each as long as it states.
    ensures made { OnOk result
        (IsMadeOf (concat pieces.now) (frames_of (concat pieces.now))
        (standing_of (concat pieces.now))) }
{
    let mut splitter = Splitter::new(alloc)?;
    for piece in pieces {
        if let Some(oversize) = cut_piece(alloc, &mut splitter, piece.as_slice(), frames)? {
            return Ok(Some(oversize));
        }
    }
    Ok(None)
}
