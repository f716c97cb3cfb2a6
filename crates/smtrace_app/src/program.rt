ghost use Rattle.std.specs.Prelude.{ℕ, List, IfOk, map, string_bytes};
ghost use Rattle.sm_world.specs.Outside.{Added, NotFallen};
ghost use Rattle.smtrace_app.specs.Statuses.{AreReplay, AskFor, Runs, Answers, Views};

use crate::fault::Fault;
use owned_lists::NoMemory;
use program_frame::{are_one_word, conclude, read_input};
use session_replay::{Verdict, replay_within};
use sm_world::Console;
use std::alloc::Global;
use trace_picture::draw_within;
use trace_reading::read_within;
use trace_replay::{ShowAnswer, show_within};

/// How many bytes a trace can have. A line that holds a byte past these is none.
pub const TRACE_LIMIT: usize = 16_777_216;

/// What is printed of a trace.
#[derive(Clone, Copy, Debug, PartialEq, Eq)]
enum View {
    /// Each message in a line, for programs.
    Shown,
    /// The trace told for people.
    Told,
    /// A picture of it.
    Drawn,
}

/// What is printed of a trace, by its view.
fn view_within(alloc: Global, view: View, trace: &[u8]) -> Result<ShowAnswer, NoMemory>
    ensures { IfOk result (Views view trace.now) }
{
    match view {
        View::Shown => show_within(alloc, trace, TRACE_LIMIT),
        View::Told => read_within(alloc, trace, TRACE_LIMIT),
        View::Drawn => draw_within(alloc, trace, TRACE_LIMIT),
    }
}

/// Prints a view of the console's input.
fn view_input<C: Console>(alloc: Global, view: View, console: &mut C) -> Result<(), Fault>
    ensures runs { (words : List (List ℕ)) → AskFor view words →
        Added (C.outside console.old).told (C.outside console.new).told
        (Runs words (C.outside console.old) (C.outside console.new) result) }
    ensures counts { NotFallen (C.outside console.old).faults (C.outside console.new).faults }
{
    let trace = read_input(alloc, console, TRACE_LIMIT + 1)?;
    match view_within(alloc, view, trace.as_slice())? {
        ShowAnswer::Text(text) => {
            console.print(text.as_slice())?;
            Ok(())
        }
        ShowAnswer::Malformed { at } => Err(Fault::Malformed(at)),
    }
}

/// Replays the console's input, and prints `same` where its lines are those of the machine.
fn replay_input<C: Console>(alloc: Global, console: &mut C) -> Result<(), Fault>
    ensures runs { (words : List (List ℕ)) → AreReplay words →
        Added (C.outside console.old).told (C.outside console.new).told
        (Runs words (C.outside console.old) (C.outside console.new) result) }
    ensures counts { NotFallen (C.outside console.old).faults (C.outside console.new).faults }
{
    let trace = read_input(alloc, console, TRACE_LIMIT + 1)?;
    let verdict = replay_within(alloc, trace.as_slice(), TRACE_LIMIT)?;
    match verdict {
        Verdict::Same => {
            console.print(b"same\n")?;
            Ok(())
        }
        Verdict::Differs { at } => Err(Fault::Differs(at)),
        Verdict::Malformed { at } => Err(Fault::Malformed(at)),
    }
}

/// Runs what the words ask for.
fn run_words<C: Console>(alloc: Global, words: &[String], console: &mut C) -> Result<(), Fault>
    ensures runs { Added (C.outside console.old).told (C.outside console.new).told
        (Runs (map string_bytes words.now) (C.outside console.old) (C.outside console.new) result) }
    ensures counts { NotFallen (C.outside console.old).faults (C.outside console.new).faults }
{
    if are_one_word(words, "show") {
        return view_input(alloc, View::Shown, console);
    }
    if are_one_word(words, "read") {
        return view_input(alloc, View::Told, console);
    }
    if are_one_word(words, "draw") {
        return view_input(alloc, View::Drawn, console);
    }
    if are_one_word(words, "replay") {
        return replay_input(alloc, console);
    }
    Err(Fault::BadWords)
}

/// Runs `smtrace` with these words, which leave out the program's name. A trace is read from the
/// console. With the word `show` each message of it is printed in a line of its own, with `read` it
/// is told for people, and with `draw` it is drawn as SVG. With the word
/// `replay` the session machine runs over its events, and `same` is printed where the trace's lines
/// are those of this run. The answer is the program's status: 0, 1 for other words, 2 for a trace
/// that differs from the machine's, 3 for one with a line that isn't of the grammar, 6 for a fault of
/// the console, and 10 for want of memory.
pub fn smtrace_main<C: Console>(alloc: Global, words: &[String], console: &mut C) -> u8
    // What each status says of the trace, and all that is printed at it.
    ensures answers { Added (C.outside console.old).told (C.outside console.new).told
        (Answers (map string_bytes words.now) (C.outside console.old)
        (C.outside console.new) result) }
    ensures counts { NotFallen (C.outside console.old).faults (C.outside console.new).faults }
{
    let ending = run_words(alloc, words, console);
    conclude(alloc, console, ending)
}
