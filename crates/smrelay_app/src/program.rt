ghost use Rattle.std.specs.Prelude.{map, string_bytes};
ghost use Rattle.sm_world.specs.Outside.{Added, NotFallen};
ghost use Rattle.smrelay_app.specs.Statuses.{Runs, Answers, RunsTask};
ghost use Rattle.smrelay_app.specs.Words.{Rehearse};

use crate::fault::Fault;
use crate::rehearsal::run_in_memory;
use crate::serving::serve_route;
use crate::trace::trace_text;
use crate::words::{read_rehearsal, read_route};
use event_script::{SCRIPT_LIMIT, Taken, read_script};
use ice_values::Endian;
use program_frame::{conclude, read_input};
use sm_world::{Console, Links};
use std::alloc::Global;

/// Relays the events of a script on a world in memory and prints the trace.
fn rehearse<W: Console>(alloc: Global, world: &mut W, to: Endian, turns: u64) -> Result<(), Fault>
    ensures runs { Added (W.outside world.old).told (W.outside world.new).told
        (RunsTask (Rehearse to) turns (W.outside world.old) (W.outside world.new) result) }
    ensures counts { NotFallen (W.outside world.old).faults (W.outside world.new).faults }
{
    let script = read_input(alloc, world, SCRIPT_LIMIT + 1)?;
    let events = read_script(alloc, script.as_slice(), Taken::WithoutOrders)?;
    let rehearsal = run_in_memory(alloc, events, to, turns)?;
    let trace = trace_text(alloc, rehearsal.world.effects())?;
    world.print(trace.as_slice())?;
    if rehearsal.finished {
        Ok(())
    } else {
        Err(Fault::Spent)
    }
}

/// Runs what the words ask for.
fn run_words<W: Links + Console>(
    alloc: Global,
    words: &[String],
    world: &mut W,
    turns: u64,
) -> Result<(), Fault>
    ensures runs { Added (W.outside world.old).told (W.outside world.new).told
        (Runs (map string_bytes words.now) turns (W.outside world.old)
        (W.outside world.new) result) }
    ensures counts { NotFallen (W.outside world.old).faults (W.outside world.new).faults }
{
    if let Some(to) = read_rehearsal(words) {
        return rehearse(alloc, world, to, turns);
    }
    match read_route(words) {
        Some(route) => serve_route(alloc, world, &route, turns),
        None => Err(Fault::BadWords),
    }
}

/// Runs `smrelay` with these words, which leave out the program's name. At most `turns` events are
/// taken. The words are one of these:
///
/// - `serve` and `--socket P`, `--to Q` and `--order lsb` or `--order msb`, in any order, P and Q of
///   1 to 4,096 bytes: each client that comes at P is led to the manager at Q, and what goes either
///   way has its numbers in this order.
/// - `rehearse lsb` or `rehearse msb`: a script is read from the console, and the trace of its run is
///   printed.
///
/// The answer is the program's status.
pub fn smrelay_main<W: Links + Console>(
    alloc: Global,
    words: &[String],
    world: &mut W,
    turns: u64,
) -> u8
    // What each status says of the words, of what they ask for, and of all that was done and printed at it.
    ensures answers { Added (W.outside world.old).told (W.outside world.new).told
        (Answers (map string_bytes words.now) (W.outside world.old)
        (W.outside world.new) turns result) }
    ensures counts { NotFallen (W.outside world.old).faults (W.outside world.new).faults }
{
    let ending = run_words(alloc, words, world, turns);
    conclude(alloc, world, ending)
}
