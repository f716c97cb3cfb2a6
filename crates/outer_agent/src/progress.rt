ghost use Rattle.outer_agent.specs.Words.{AreFew};

use crate::words::command_words;
use client_engine::Core;
use ice_cookie::Cookie;
use ice_values::Array8;
use owned_lists::{NoMemory, OctetsList};
use std::alloc::Global;

/// How far a manager is with its outer one.
#[derive(Drop)]
pub struct Progress {
    pub alloc: Global,
    pub core: Core,
    /// The words of its command, without its ID.
    pub words: OctetsList,
    ghost few: { AreFew words },
}

impl Progress {
    ghost use Rattle.std.specs.Prelude.{◌≡◌, ◌≤◌, false, length, IfOk};
    ghost use Rattle.outer_agent.specs.Doing.{stand_of};
    ghost use Rattle.outer_agent.specs.Standing.{start_stand};

    /// Behind ByteOrder.
    pub fn begin(
        alloc: Global,
        cookie: Cookie,
        previous: Array8,
        words: &OctetsList,
    ) -> Result<Progress, NoMemory>
        requires previous { length previous ≤ 512 }
        requires few { AreFew words.now }
        ensures { IfOk result (λ progress. stand_of progress false
            ≡ start_stand cookie previous words.now) }
    {
        let words = command_words(alloc, words.as_slice())?;
        Ok(Progress {
            alloc,
            core: Core::new(alloc, cookie, previous)?,
            words,
        })
    }
}
