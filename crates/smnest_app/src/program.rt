ghost use Rattle.std.specs.Prelude.{◌≤◌, length, map, string_bytes};
ghost use Rattle.sm_world.specs.Outside.{Added, NotFallen};
ghost use Rattle.outer_agent.specs.Words.{AreFew};
ghost use Rattle.smd_app.specs.declared.identity.Identity.{Identity as AnyIdentity};
ghost use Rattle.smnest_app.specs.Statuses.{Answers, Runs, RunsTask};
ghost use Rattle.smnest_app.specs.Words.{Rehearse};

use crate::fault::Fault;
use crate::rehearsal::run_in_memory;
use crate::serving::serve_inside;
use crate::words::{read_places, read_rehearsal, word_list};
use event_script::{SCRIPT_LIMIT, Taken, read_script};
use ice_values::Array8;
use outer_agent::are_few;
use outer_world::Outer;
use owned_lists::OctetsList;
use program_frame::{conclude, read_input};
use sm_world::{Console, Disk, Links, Spawner};
use smd_app::{Fault as SessionFault, Identity, trace_text};
use std::alloc::Global;

/// Runs the events of a script as a session inside another on a world in memory, and prints the trace.
fn rehearse<W: Console>(
    alloc: Global,
    world: &mut W,
    id: &str,
    words: OctetsList,
    turns: u64,
) -> Result<(), Fault>
    requires id { length id.now ≤ 512 }
    requires few { AreFew words }
    ensures runs { (identity : AnyIdentity) → Added (W.outside world.old).told
        (W.outside world.new).told (RunsTask words (Rehearse id.now) identity turns
        (W.outside world.old) (W.outside world.new) result) }
    ensures counts { NotFallen (W.outside world.old).faults (W.outside world.new).faults }
{
    let script = read_input(alloc, world, SCRIPT_LIMIT + 1)?;
    let events = read_script(alloc, script.as_slice(), Taken::All)?;
    let previous = Array8::from_slice(alloc, id.as_bytes())?;
    let rehearsal = run_in_memory(alloc, events, previous, words, turns)?;
    let trace = trace_text(alloc, 0, rehearsal.world.effects())?;
    world.print(trace.as_slice())?;
    if rehearsal.finished {
        Ok(())
    } else {
        Err(Fault::Session(SessionFault::Spent))
    }
}

/// Runs what the words ask for.
fn run_words<W: Disk + Links + Spawner + Console + Outer>(
    alloc: Global,
    words: &[String],
    world: &mut W,
    identity: &Identity,
    turns: u64,
) -> Result<(), Fault>
    requires { length identity.now.host ≤ 255 }
    ensures runs { Added (W.outside world.old).told (W.outside world.new).told
        (Runs (map string_bytes words.now) identity.now turns (W.outside world.old)
        (W.outside world.new) result) }
    ensures counts { NotFallen (W.outside world.old).faults (W.outside world.new).faults }
{
    let own = word_list(alloc, words)?;
    if !are_few(&own) {
        return Err(Fault::Session(SessionFault::BadWords));
    }
    if let Some(id) = read_rehearsal(words) {
        return rehearse(alloc, world, id, own, turns);
    }
    match read_places(alloc, words)? {
        Some(paths) => serve_inside(alloc, world, identity, &paths, own, turns),
        None => Err(Fault::Session(SessionFault::BadWords)),
    }
}

/// Runs `smnest` with these words, which leave out the program's name. At most `turns` events are
/// taken. The words, which have at most 32,768 bytes as an outer manager is told them, are one of
/// these:
///
/// - `serve` and the pairs of a session of `smd`, and besides `--outer X` and `--outer-authority Y`,
///   in any order: the session is served as `smd` serves it, and is itself one client of the manager
///   at the socket X, for which it finds a cookie in the file Y. With `--outer-id ID` too it joins
///   under the ID of an earlier session.
/// - `rehearse`, perhaps with `--outer-id ID`: a script is read from the console, and the trace of its
///   run is printed. What comes on the connection 0 is the outer manager's.
///
/// The answer is the program's status.
pub fn smnest_main<W: Disk + Links + Spawner + Console + Outer>(
    alloc: Global,
    words: &[String],
    world: &mut W,
    identity: Identity,
    turns: u64,
) -> u8
    requires { length identity.host ≤ 255 }
    // What each status says of the words, of what they ask for, and of all that was done and printed at it.
    ensures answers { Added (W.outside world.old).told (W.outside world.new).told
        (Answers (map string_bytes words.now) identity (W.outside world.old) (W.outside world.new)
        turns result) }
    ensures counts { NotFallen (W.outside world.old).faults (W.outside world.new).faults }
{
    let ending = run_words(alloc, words, world, &identity, turns);
    conclude(alloc, world, ending)
}
