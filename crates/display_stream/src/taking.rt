ghost use Rattle.std.specs.Prelude.{◌≡◌, ◌≤◌, ◌++◌, false, length, drop, IfOk, OnOk, MatchOption};
ghost use Rattle.display_stream.specs.Parts.{beginning, fed, has_part, uncut, behind, cut, IsOversize, StandsAt};

use crate::Stage;
use crate::stages::{UNIT_LIMIT, units_of, whole_len};
use owned_lists::{NoMemory, Octets, OctetsList};
use std::alloc::Global;
use std::marker::Model;

/// What came of a stream behind its last whole part. Memory is taken as bytes come.
#[derive(Debug, Drop)]
pub struct Remainder {
    stage: Stage,
    held: Octets,
}

impl Model for Remainder {
    ghost use Rattle.display_stream.specs.Parts.{Standing};

    ghost Value = { Standing };

    ghost view = { λ remainder. record { stage = remainder.stage; held = remainder.held } };
}

/// Parts were taken from the front of some bytes.
#[derive(Clone, Copy, Debug)]
struct Front {
    /// What comes behind them.
    stage: Stage,
    /// How many bytes they have.
    taken: usize,
}

/// Adds the parts at the front of some bytes to the list.
fn take_parts(
    alloc: Global,
    stage: Stage,
    bytes: &[u8],
    parts: &mut OctetsList,
) -> Result<Front, NoMemory>
    ensures cut { IfOk result (λ front. behind parts.new (uncut (record { stage = front.stage; held = drop front.taken bytes.now }))
        ≡ behind parts.old (cut (record { stage = stage; held = bytes.now }))) }
    ensures none { IfOk result (λ front.
        has_part (record { stage = front.stage; held = drop front.taken bytes.now }) ≡ false) }
    ensures within { IfOk result (λ front. front.taken ≤ length bytes.now) }
{
    let mut stage = stage;
    let mut taken = 0;
    while let Some(len) = whole_len(stage, &bytes[taken..]) {
        let rest = &bytes[taken..];
        let (part, _) = rest.split_at(len);
        parts.push(Octets::from_slice(alloc, part)?)?;
        stage = Stage::Later;
        taken += len;
    }
    Ok(Front { stage, taken })
}

impl Remainder {
    /// Before a stream's first byte; this takes no memory.
    pub fn new(alloc: Global) -> Remainder
        ensures { result ≡ beginning }
    {
        Remainder {
            stage: Stage::Setup,
            held: Octets::new(alloc),
        }
    }

    /// Adds the parts that a piece makes whole to the list. None comes where a part states more units
    /// than it may: the stream is broken there, and what comes behind isn't looked at.
    pub fn take(
        self,
        alloc: Global,
        piece: &[u8],
        parts: &mut OctetsList,
    ) -> Result<Option<Remainder>, NoMemory>
        ensures parts { OnOk result
            (parts.new ≡ parts.old ++ (cut (fed self piece.now)).parts) }
        ensures stands { IfOk result (λ after. MatchOption after (IsOversize (cut (fed self piece.now)).standing)
            (λ rest. StandsAt (cut (fed self piece.now)).standing rest)) }
    {
        let Remainder { stage, mut held } = self;
        held.append(piece)?;
        let front = take_parts(alloc, stage, held.as_slice(), parts)?;
        if front.taken > 0 {
            held = Octets::from_slice(alloc, &held.as_slice()[front.taken..])?;
        }
        if units_of(front.stage, held.as_slice()) > UNIT_LIMIT {
            return Ok(None);
        }
        Ok(Some(Remainder {
            stage: front.stage,
            held,
        }))
    }
}
