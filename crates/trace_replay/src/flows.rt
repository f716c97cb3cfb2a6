use ice_framing::{Remainder, WholeFrameList};
use owned_lists::{NoMemory, Octets};
use std::alloc::Global;

/// How far a stream was read that can go on.
#[derive(Debug, Drop)]
pub struct Flow {
    remainder: Remainder,
    /// How many of its frames were shown.
    shown: u64,
}

/// How far the stream of one direction of a connection was read.
#[derive(Debug, Drop)]
pub enum Progress {
    /// It goes on.
    Going(Flow),
    /// A header that states too much ended it.
    Ended,
}

/// What a piece of a stream brought.
#[derive(Debug, Drop)]
pub struct Brought {
    /// How many parts came before it.
    pub before: u64,
    /// The frames that it made whole.
    pub frames: WholeFrameList,
    /// Whether a header that states too much came behind them.
    pub ended: bool,
}

impl Brought {
    ghost use Rattle.std.specs.Prelude.{◌≡◌, [], false};

    /// No parts; this takes no memory.
    pub fn nothing(alloc: Global) -> Brought
        ensures { (result.before ≡ 0) × (result.frames ≡ []) × (result.ended ≡ false) }
    {
        Brought {
            before: 0,
            frames: WholeFrameList::new(alloc),
            ended: false,
        }
    }
}

impl Flow {
    ghost use Rattle.std.specs.Prelude.{◌≡◌, ℕ, List, IfOk};
    ghost use Rattle.ice_framing.specs.Frames.{beginning};
    ghost use Rattle.std.specs.List.{AllByRecursion};
    ghost use Rattle.trace_replay.specs.Flows.{TakesPiece};
    ghost use Rattle.trace_replay.specs.Parts.{IsHeaded};

    /// Before the first byte; this takes no memory.
    pub fn new(alloc: Global) -> Flow
        ensures { (result.remainder ≡ beginning) × (result.shown ≡ 0) }
    {
        Flow {
            remainder: Remainder::new(alloc),
            shown: 0,
        }
    }

    /// Goes on with a piece.
    fn take(self, alloc: Global, piece: &[u8]) -> Result<(Progress, Brought), NoMemory>
        ensures takes { IfOk result (λ took. (stream : List ℕ) →
            TakesPiece stream piece.now (Progress.Going self) took.0 took.1) }
        ensures headed { IfOk result (λ took. AllByRecursion IsHeaded took.1.frames) }
    {
        let Flow { remainder, shown } = self;
        let mut frames = WholeFrameList::new(alloc);
        let remainder = remainder.take(alloc, piece, &mut frames)?;
        let count = shown.saturating_add(frames.as_slice().len() as u64);
        match remainder {
            Some(remainder) => {
                let flow = Flow {
                    remainder,
                    shown: count,
                };
                Ok((
                    Progress::Going(flow),
                    Brought {
                        before: shown,
                        frames,
                        ended: false,
                    },
                ))
            }
            None => Ok((
                Progress::Ended,
                Brought {
                    before: shown,
                    frames,
                    ended: true,
                },
            )),
        }
    }
}

impl Progress {
    ghost use Rattle.std.specs.Prelude.{ℕ, List, IfOk};
    ghost use Rattle.std.specs.List.{AllByRecursion};
    ghost use Rattle.trace_replay.specs.Flows.{TakesPiece};
    ghost use Rattle.trace_replay.specs.Parts.{IsHeaded};

    /// Goes on with a piece.
    pub fn take(self, alloc: Global, piece: &[u8]) -> Result<(Progress, Brought), NoMemory>
        ensures takes { IfOk result (λ took. (stream : List ℕ) →
            TakesPiece stream piece.now self took.0 took.1) }
        ensures headed { IfOk result (λ took. AllByRecursion IsHeaded took.1.frames) }
    {
        match self {
            Progress::Going(flow) => flow.take(alloc, piece),
            Progress::Ended => Ok((Progress::Ended, Brought::nothing(alloc))),
        }
    }
}
