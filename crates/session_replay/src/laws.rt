ghost use Rattle.std.specs.Prelude.{ℕ, List};
ghost use Rattle.control_lines.specs.Laws.{MeansOne};
ghost use Rattle.session_replay.specs.Verdicts.{ReplaysWithin};

/// Does nothing: its contract is a law of `replay`. A trace has one verdict at most, so each comes
/// exactly where it is so, but for want of memory.
pub fn a_trace_has_one_verdict()
    ensures { (limit : ℕ) (trace : List ℕ) → MeansOne (ReplaysWithin limit trace) }
{}
