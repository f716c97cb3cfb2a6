ghost use Rattle.std.specs.Prelude.{◌≡◌, ◌≤◌, [], length, None, IfOk};
ghost use Rattle.ice_framing.specs.Frames.{beginning};
ghost use Rattle.client_callbacks.specs.Doing.{keeper_of};
ghost use Rattle.client_callbacks.specs.Script.{start};

use crate::ends::Ending;
use crate::joiner::Join;
use client_engine::Core;
use owned_lists::{Duplicate, NoMemory, OctetsList};
use std::alloc::Global;

/// How far a run is.
#[derive(Drop)]
pub struct Progress {
    pub alloc: Global,
    pub core: Core,
    /// How many saves are still to be complete.
    pub saves: u32,
    /// How the run ended, once it is at its end.
    pub ending: Option<Ending>,
    /// What was noted.
    pub lines: OctetsList,
}

impl Progress {
    /// Before anything is said.
    pub fn begin(alloc: Global, join: &Join) -> Result<Progress, NoMemory>
        requires { length join.now.previous ≤ 512 }
        ensures keeper { IfOk result (λ progress. keeper_of progress
            ≡ (start join.now.cookie join.now.previous join.now.saves).keeper) }
        ensures splitter { IfOk result (λ progress. progress.core.splitter ≡ beginning) }
        ensures lines { IfOk result (λ progress. progress.lines ≡ []) }
    {
        let previous = join.previous.copy()?;
        Ok(Progress {
            alloc,
            core: Core::new(alloc, join.cookie, previous)?,
            saves: join.saves,
            ending: None,
            lines: OctetsList::new(alloc),
        })
    }
}
