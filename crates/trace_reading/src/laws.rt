ghost use Rattle.std.specs.Prelude.{ℕ, List};
ghost use Rattle.control_lines.specs.Laws.{MeansOne};
ghost use Rattle.trace_reading.specs.Reads.{ReadsWithin};

/// Does nothing: its contract is a law of `read_within`. A trace is told in one way at most, or one
/// line is the first that isn't of the grammar.
pub fn a_trace_is_told_in_one_way()
    ensures { (limit : ℕ) (trace : List ℕ) → MeansOne (ReadsWithin limit trace) }
{}
