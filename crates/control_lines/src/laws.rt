ghost use Rattle.std.specs.Prelude.{ℕ, List};
ghost use Rattle.control_lines.specs.Laws.{MeansOne, SaysAgain};
ghost use Rattle.control_lines.specs.Orders.{SaysOrder};
ghost use Rattle.control_lines.specs.Script.{Gives, SayAll};

/// Does nothing: its contract is a law of orders. A line says one order at most.
pub fn a_line_says_one_order()
    ensures { (line : List ℕ) → MeansOne (SaysOrder line) }
{}

/// Does nothing: its contract is a law of scripts. A line says one event at most, and one that is
/// skipped says none.
pub fn a_line_gives_one_event()
    ensures { (line : List ℕ) → MeansOne (Gives line) }
{}

/// Does nothing: its contract is a law of scripts. Lines say one list of events at most.
pub fn lines_say_one_list()
    ensures { (lines : List (List ℕ)) → MeansOne (SayAll lines) }
{}

/// Does nothing: its contract is a law of scripts and traces. The line by which a trace shows an
/// event says that event, for each event that a script can say.
pub fn a_line_says_its_event()
    ensures { SaysAgain }
{}
