ghost use Rattle.std.specs.Prelude.{◌≡◌, ◌↔◌, ◌∷◌, ◌++◌, ℕ, List, length, IsTrue, IfOk, MatchOption};
ghost use Rattle.control_lines.specs.Lines.{lines_of};
ghost use Rattle.session_engine.specs.Doing.{item_of, items};
ghost use Rattle.session_in_memory.specs.Lines.{run_lines};
ghost use Rattle.session_replay.specs.Comparing.{AreLinesOf, GoesOn, IsLineOf, PartAtOnce, PartWith};

use control_lines::next_line;
use owned_lists::NoMemory;
use session_in_memory::trace_line;
use sm_world::Effect;
use std::alloc::Global;

/// Whether a line of a trace is this one of the machine's.
fn is_line_of(made: &[u8], line: &[u8]) -> bool
    ensures { IsTrue result ↔ IsLineOf made.now line.now }
{
    if line == made {
        return true;
    }
    let Some(own) = made.strip_prefix(b"started ") else {
        return false;
    };
    match line.strip_prefix(b"unstarted ") {
        Some(other) => other == own,
        None => false,
    }
}

/// What stands behind the first line of a text, where that is this one of the machine's.
fn behind_line<'a>(made: &[u8], text: &'a [u8]) -> Option<&'a [u8]>
    ensures { MatchOption result ((others : List (List ℕ)) →
        PartAtOnce (made.now ∷ others) (lines_of text.now)) (λ rest.
        (line : List ℕ) × (lines_of text.now ≡ line ∷ lines_of rest.now) × IsLineOf made.now line) }
{
    if text.is_empty() {
        return None;
    }
    let (line, rest) = next_line(text);
    if is_line_of(made, line) {
        Some(rest)
    } else {
        None
    }
}

/// What stands behind the line of an effect, where it has one; None where the text goes on with
/// another line, or is at its end.
fn behind_effect<'a>(
    alloc: Global,
    effect: &Effect,
    text: &'a [u8],
) -> Result<Option<&'a [u8]>, NoMemory>
    ensures { IfOk result (λ found.
        MatchOption found ((others : List (List ℕ)) →
        PartAtOnce (run_lines (item_of effect.now) ++ others) (lines_of text.now)) (λ rest.
        GoesOn (run_lines (item_of effect.now)) (lines_of text.now) (lines_of rest.now))) }
{
    match trace_line(alloc, effect)? {
        Some(made) => Ok(behind_line(made.as_slice(), text)),
        None => Ok(Some(text)),
    }
}

/// How many lines a text has.
pub fn count_lines(text: &[u8]) -> u64
    ensures { result ≡ length (lines_of text.now) }
{
    let mut left = text;
    let mut count = 0u64;
    while !left.is_empty() {
        let (_, rest) = next_line(left);
        count += 1;
        left = rest;
    }
    count
}

/// How many lines of a text are left where it and the lines of these effects part; None where they
/// don't.
pub fn parting(alloc: Global, effects: &[Effect], text: &[u8]) -> Result<Option<u64>, NoMemory>
    ensures { IfOk result (λ found.
        MatchOption found (AreLinesOf (run_lines (items effects.now)) (lines_of text.now))
        (PartWith (run_lines (items effects.now)) (lines_of text.now))) }
{
    let mut left = text;
    for effect in effects {
        match behind_effect(alloc, effect, left)? {
            Some(rest) => left = rest,
            None => return Ok(Some(count_lines(left))),
        }
    }
    let more = count_lines(left);
    if more == 0 { Ok(None) } else { Ok(Some(more)) }
}
