ghost use Rattle.std.specs.Prelude.{◌≡◌, ◌≤◌, false, true, length, MatchOption};
ghost use Rattle.display_stream.specs.Parts.{units_in, head_in, wanted, has_part};

use ice_values::{Endian, read_card16, read_card32};

/// How many units of 4 bytes a part may state behind its first bytes: as many as the two bytes of the
/// answer to a set-up can say. That is 32 and 262,140 bytes; a part that states more is taken for the
/// end of a stream that has broken. The limit is this program's own.
pub const UNIT_LIMIT: u32 = 65_535;

/// What comes next in a stream.
#[derive(Clone, Copy, Debug, PartialEq, Eq)]
pub enum Stage {
    /// The answer to the set-up: 8 bytes, and units that are counted at 6 (X protocol, chapter 8).
    Setup,
    /// A reply, an Error or an event: 32 bytes, and units that replies and generic events count at 4
    /// (X protocol, chapter 1).
    Later,
}

/// How many units the next part states, as soon as its first 8 bytes have come.
pub(crate) fn units_of(stage: Stage, bytes: &[u8]) -> u32
    ensures { result ≡ units_in stage bytes.now }
{
    if bytes.len() < 8 {
        return 0;
    }
    match stage {
        Stage::Setup => {
            let (_, count) = bytes.split_at(6);
            read_card16(Endian::Lsb, count) as u32
        }
        Stage::Later => {
            if bytes[0] == 1 || bytes[0] == 35 {
                let (_, count) = bytes.split_at(4);
                read_card32(Endian::Lsb, count)
            } else {
                0
            }
        }
    }
}

fn head_len(stage: Stage) -> usize
    ensures is { result ≡ head_in stage }
    ensures some { (8 ≤ result) × (result ≤ 32) }
{
    match stage {
        Stage::Setup => 8,
        Stage::Later => 32,
    }
}

/// How many bytes the part in front has; None where none is whole or it states too much.
pub(crate) fn whole_len(stage: Stage, bytes: &[u8]) -> Option<usize>
    ensures { MatchOption result (has_part (record { stage = stage; held = bytes.now }) ≡ false)
        (λ len. (len ≡ wanted (record { stage = stage; held = bytes.now }))
        × (has_part (record { stage = stage; held = bytes.now }) ≡ true)) }
{
    let units = units_of(stage, bytes);
    if units > UNIT_LIMIT {
        return None;
    }
    let len = head_len(stage) + 4 * units as usize;
    if len <= bytes.len() { Some(len) } else { None }
}
