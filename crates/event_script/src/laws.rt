ghost use Rattle.std.specs.Prelude.{ℕ, List};
ghost use Rattle.event_script.specs.Exclusions.{MeansOnce};
ghost use Rattle.event_script.specs.declared.script.Taken.{Taken as AnyTaken};

/// Does nothing: its contract is a law of `read_script`. A script says one list of events, or it has
/// one first bad line, and never both.
pub fn a_script_says_one_list_or_has_one_first_bad_line()
    ensures { (taken : AnyTaken) (bytes : List ℕ) → MeansOnce taken bytes }
{}
