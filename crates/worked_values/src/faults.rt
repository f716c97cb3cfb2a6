ghost use Rattle.std.specs.Prelude.{◌++◌, codes, Some};
ghost use Rattle.std.specs.Fmt.{decimal};
ghost use Rattle.program_frame.specs.Printing.{line};

use program_frame::{ProgramFault, try_numbered};
use sm_world::Console;
use std::alloc::Global;

/// A fault whose line ends with a number.
#[derive(Clone, Copy, Debug, PartialEq, Eq)]
pub struct Trouble(pub u64);

impl ProgramFault for Trouble {
    ghost status_of = { λ _. 2 };

    ghost line_of = { λ fault. Some (line (codes "trouble at " ++ decimal fault.0)) };

    fn status(self) -> u8 {
        2
    }

    fn report<W: Console>(self, alloc: Global, world: &mut W) {
        try_numbered(alloc, world, "trouble at ", self.0);
    }
}
