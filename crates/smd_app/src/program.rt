ghost use Rattle.std.specs.Prelude.{ℕ, List, length, map, string_bytes, ◌≤◌};
ghost use Rattle.sm_world.specs.Outside.{Added, NotFallen};
ghost use Rattle.smd_app.specs.Exercises.{exercise_events};
ghost use Rattle.smd_app.specs.Statuses.{Runs, Answers, RunsTask, RunsExercise};
ghost use Rattle.smd_app.specs.Words.{Rehearse as IsRehearsal};

use crate::exercise::exercise_script;
use crate::fault::Fault;
use crate::identity::Identity;
use crate::rehearsal::run_in_memory;
use crate::script::{SCRIPT_LIMIT, read_script};
use crate::serving::serve_session;
use crate::summary::summary_line;
use crate::trace::trace_text;
use crate::words::{Exercise, read_exercise, read_paths, read_rehearse};
use program_frame::{conclude, read_input};
use sm_world::{Console, Disk, Links, Spawner};
use std::alloc::Global;

/// Runs the events of a script on a world in memory and prints the trace.
fn rehearse<W: Console>(
    alloc: Global,
    world: &mut W,
    patience: u64,
    turns: u64,
) -> Result<(), Fault>
    ensures runs { (identity : Identity) → Added (W.outside world.old).told
        (W.outside world.new).told (RunsTask (IsRehearsal patience) identity turns
        (W.outside world.old) (W.outside world.new) result) }
    ensures counts { NotFallen (W.outside world.old).faults (W.outside world.new).faults }
{
    let script = read_input(alloc, world, SCRIPT_LIMIT + 1)?;
    let events = read_script(alloc, script.as_slice())?;
    let rehearsal = run_in_memory(alloc, events, patience, turns)?;
    let trace = trace_text(alloc, patience, rehearsal.world.effects())?;
    world.print(trace.as_slice())?;
    if rehearsal.finished {
        Ok(())
    } else {
        Err(Fault::Spent)
    }
}

/// Runs the events of an exercise on a world in memory and prints the summary.
fn run_exercise<W: Console>(
    alloc: Global,
    world: &mut W,
    exercise: Exercise,
    turns: u64,
) -> Result<(), Fault>
    requires { exercise.rounds ≤ 1000 }
    ensures runs { Added (W.outside world.old).told (W.outside world.new).told
        (RunsExercise (W.outside world.old).faults.console (W.outside world.new).faults.console
        (exercise_events exercise.pattern exercise.rounds) turns result) }
    ensures counts { NotFallen (W.outside world.old).faults (W.outside world.new).faults }
{
    let events = exercise_script(alloc, exercise)?;
    let rehearsal = run_in_memory(alloc, events, 0, turns)?;
    if !rehearsal.finished {
        return Err(Fault::Spent);
    }
    let summary = summary_line(alloc, rehearsal.world.effects())?;
    world.print(summary.as_bytes())?;
    Ok(())
}

/// Runs what the words ask for.
fn run_words<W: Disk + Links + Spawner + Console>(
    alloc: Global,
    words: &[String],
    world: &mut W,
    identity: &Identity,
    turns: u64,
) -> Result<(), Fault>
    requires { length identity.now.host ≤ 255 }
    ensures runs { Added (W.outside world.old).told (W.outside world.new).told
        (Runs (map string_bytes words.now) identity.now turns (W.outside world.old)
        (W.outside world.new) result) }
    ensures counts { NotFallen (W.outside world.old).faults (W.outside world.new).faults }
{
    if let Some(patience) = read_rehearse(alloc, words)? {
        return rehearse(alloc, world, patience, turns);
    }
    if let Some(paths) = read_paths(alloc, words)? {
        return serve_session(alloc, world, identity, &paths, turns);
    }
    match read_exercise(alloc, words)? {
        Some(exercise) => run_exercise(alloc, world, exercise, turns),
        None => Err(Fault::BadWords),
    }
}

/// Runs `smd` with these words, which leave out the program's name. At most `turns` events are
/// taken. The words are one of these:
///
/// - `serve` and `--socket P`, `--control C`, `--store F` and `--authority A`, in any order, each
///   value of 1 to 4,096 bytes: the session is served on these sockets, over this store, and shows
///   itself by this identity, whose cookie clients find in the file A. With `--patience MS` too a
///   client is shut that is waited for and silent for MS milliseconds; without it nobody is. With
///   `--session NAME` the session of this name is served, and without it `default`; the other sessions
///   of the store stay as they are.
/// - `rehearse`, or `rehearse MS` with such a patience: a script is read from the console, and the
///   trace of its run is printed, behind the line `patience MS`.
/// - `exercise A N`: eight clients log in, save N times, and leave; a summary is printed.
///
/// The answer is the program's status.
pub fn smd_main<W: Disk + Links + Spawner + Console>(
    alloc: Global,
    words: &[String],
    world: &mut W,
    identity: Identity,
    turns: u64,
) -> u8
    requires { length identity.host ≤ 255 }
    // What each status says of the words, of what they ask for, and of all that was done and printed at it.
    ensures answers { Added (W.outside world.old).told (W.outside world.new).told
        (Answers (map string_bytes words.now) identity (W.outside world.old)
        (W.outside world.new) turns result) }
    ensures counts { NotFallen (W.outside world.old).faults (W.outside world.new).faults }
{
    let ending = run_words(alloc, words, world, &identity, turns);
    conclude(alloc, world, ending)
}
