ghost use Rattle.std.specs.Prelude.{◌≡◌, ◌++◌, ◌∷◌, [], ℕ, List, Option, Some, None};
ghost use Rattle.std.specs.Fmt.{decimal};
ghost use Rattle.sm_world.specs.Outside.{Added};
ghost use Rattle.program_frame.specs.Printing.{Tries, OnlyPrints, line};
ghost use Rattle.program_frame.specs.Programs.{status_by, line_by};

use sm_world::Console;
use std::alloc::Global;

/// Why a run of a program didn't end well. Each fault has a status, and a line or none.
pub trait ProgramFault: Copy {
    ghost status_of: { Self → ℕ };

    // The line with its newline. A fault of the console has none.
    ghost line_of: { Self → Option (List ℕ) };

    /// The status with which the program ends.
    fn status(self) -> u8
        ensures { result ≡ status_of self };

    /// Prints the line, where there is one, once. A refusal changes nothing more.
    fn report<W: Console>(self, alloc: Global, world: &mut W)
        ensures tried { Added (W.outside world.old).told (W.outside world.new).told
            (Tries (line_of self)) }
        ensures prints { OnlyPrints (W.outside world.old) (W.outside world.new) }
        ensures silent { line_of self ≡ None → W.outside world.new ≡ W.outside world.old };
}

/// Prints a line. A refusal changes nothing more.
pub fn try_line<W: Console>(world: &mut W, line: &[u8])
    ensures tried { Added (W.outside world.old).told (W.outside world.new).told
        (Tries (Some line.now)) }
    ensures prints { OnlyPrints (W.outside world.old) (W.outside world.new) }
{
    let _ = world.print(line);
}

/// Prints a line that ends with a number. A refusal, also for want of memory, changes nothing more.
pub fn try_numbered<W: Console>(alloc: Global, world: &mut W, words: &str, number: u64)
    ensures tried { Added (W.outside world.old).told (W.outside world.new).told
        (Tries (Some (line (words.now ++ decimal number)))) }
    ensures prints { OnlyPrints (W.outside world.old) (W.outside world.new) }
{
    if let Ok(line) = format!(in alloc; "{words}{number}\n") {
        try_line(world, line.as_bytes());
    }
}

/// The status of a run that ended so. Where it ended with a fault, the fault's line is tried once.
pub fn conclude<F: ProgramFault, W: Console>(
    alloc: Global,
    world: &mut W,
    ending: Result<(), F>,
) -> u8
    ensures status { result ≡ status_by F.status_of ending }
    ensures tried { Added (W.outside world.old).told (W.outside world.new).told
        (Tries (line_by F.line_of ending)) }
    ensures prints { OnlyPrints (W.outside world.old) (W.outside world.new) }
    ensures silent { line_by F.line_of ending ≡ None → W.outside world.new ≡ W.outside world.old }
{
    match ending {
        Ok(()) => 0,
        Err(fault) => {
            fault.report(alloc, world);
            fault.status()
        }
    }
}
