ghost use Rattle.adopted_words.specs.Laws.{SayOne};

/// Does nothing: its contract is a law of all lines and files. A line says one rule at most, and a
/// file says one list of rules or has one first bad line, and never both.
pub fn rules_are_one_list_or_have_one_bad_line()
    ensures { SayOne }
{}
