ghost use Rattle.xsmp_properties.specs.Tables.{IsTableFull};

use crate::program::Program;
use crate::windows::WindowList;
use client_engine::Core;
use client_machine::ClientPhase;
use ice_cookie::Cookie;
use ice_values::{Array8, PropertyList};
use owned_lists::NoMemory;
use std::alloc::Global;

/// How far a program's keeper is.
#[derive(Drop)]
pub struct Progress {
    pub alloc: Global,
    pub core: Core,
    /// What the client sets as it saves.
    pub set: PropertyList,
    pub program: Program,
    ghost few: { ¬ (IsTableFull set) },
}

impl Progress {
    ghost use Rattle.std.specs.Prelude.{◌≡◌, ◌≤◌, false, length, IfOk};
    ghost use Rattle.program_keeper.specs.Doing.{keeper_of, stand_of};
    ghost use Rattle.program_keeper.specs.Script.{is_idle, is_talking};
    ghost use Rattle.program_keeper.specs.Standing.{start_stand};

    /// Behind ByteOrder.
    pub fn begin(
        alloc: Global,
        cookie: Cookie,
        previous: Array8,
        set: PropertyList,
        windows: WindowList,
    ) -> Result<Progress, NoMemory>
        requires previous { length previous ≤ 512 }
        requires few { ¬ (IsTableFull set) }
        ensures { IfOk result (λ progress. stand_of progress false
            ≡ start_stand cookie previous set windows) }
    {
        Ok(Progress {
            alloc,
            core: Core::new(alloc, cookie, previous)?,
            set,
            program: Program::new(alloc, windows),
        })
    }

    /// Whether the client has the token.
    pub fn is_talking(&self) -> bool
        ensures { result ≡ is_talking (keeper_of self.now) }
    {
        match self.core.phase() {
            ClientPhase::Interacting => true,
            ClientPhase::InteractingTwo => true,
            _ => false,
        }
    }

    /// Whether the client is in no save.
    pub fn is_idle(&self) -> bool
        ensures { result ≡ is_idle (keeper_of self.now) }
    {
        match self.core.phase() {
            ClientPhase::Idle => true,
            _ => false,
        }
    }
}
