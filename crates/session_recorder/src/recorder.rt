ghost use Rattle.std.specs.Prelude.{◌≡◌, false, List, ℕ, Option, Some};
ghost use Rattle.sm_world.specs.declared.effects.Effect.{Effect};
ghost use Rattle.session_recorder.specs.Recorded.{IsDue, IsNew, Keeps, KeepsTold};

use crate::kept_lines::KeptLines;
use crate::progress::Progress;
use crate::record::Record;
use owned_lists::Octets;
use sm_world::Told;
use std::alloc::Global;
use std::marker::Model;

/// A world whose events and deeds are recorded. Each call goes to the inner world as it is, and what it
/// answers comes back as it is, also where the record can't be kept.
///
/// The record begins behind the first line that is printed, which tells where the session is found:
/// that line isn't the session's.
#[derive(Drop)]
pub struct Recorder<W: Told, R: KeptLines> {
    pub(crate) alloc: Global,
    pub(crate) world: W,
    pub(crate) record: Record<R>,
}

impl<W: Told, R: KeptLines> Model for Recorder<W, R> {
    ghost use Rattle.session_recorder.specs.Recorded.{IsDue, KeepsTold, Watched};

    ghost Value = { Watched W R };

    ghost view = { λ r.
        record {
          world = r.world;
          lines = r.record.lines;
          opening = r.record.opening;
          progress = r.record.progress;
        } };

    ghost invariant = { λ r.
        KeepsTold r.record.opening r.record.progress (W.outside r.world).told
        (R.kept r.record.lines)
        × IsDue r.record.progress (R.refused r.record.lines) (R.lost r.record.lines) };
}

/// Keeps what a record opens with. The user is told where that can't be kept.
fn keep_opening<R: KeptLines>(lines: &mut R, opening: &[u8]) -> Progress
    requires new { IsNew (R.kept lines.old) }
    requires kept { R.refused lines.old ≡ false }
    requires untold { R.lost lines.old ≡ false }
    ensures keeps { (told : Option (List Effect)) → IsNew told →
        KeepsTold opening.now result told (R.kept lines.new) }
    ensures due { IsDue result (R.refused lines.new) (R.lost lines.new) }
{
    match lines.keep(opening) {
        Ok(()) => Progress::Waiting,
        Err(_) => {
            lines.tell_lost();
            Progress::Lost
        }
    }
}

impl<W: Told, R: KeptLines> Recorder<W, R> {
    /// Records what this world will hear and do, behind this opening.
    pub fn new(alloc: Global, world: W, mut lines: R, opening: Octets) -> Recorder<W, R>
        requires world { IsNew (W.outside world).told }
        requires lines { IsNew (R.kept lines) }
        requires kept { R.refused lines ≡ false }
        requires untold { R.lost lines ≡ false }
        ensures world { result.world ≡ world }
        ensures opening { result.opening ≡ opening }
    {
        let progress = keep_opening(&mut lines, opening.as_slice());
        let mut record = Record {
            lines,
            opening,
            progress,
        };
        Recorder {
            alloc,
            world,
            record,
        }
    }

    /// Gives back the world and the record of all that it told.
    pub fn parts(self) -> (W, R)
        ensures world { result.0 ≡ self.world }
        ensures lines { result.1 ≡ self.lines }
        ensures keeps { (effects : List Effect) (kept : List ℕ) →
            (W.outside result.0).told ≡ Some effects → R.kept result.1 ≡ Some kept →
            Keeps self.opening self.progress effects kept }
        ensures due { IsDue self.progress (R.refused result.1) (R.lost result.1) }
    {
        let Recorder {
            alloc: _,
            world,
            record,
        } = self;
        (world, record.lines)
    }
}
