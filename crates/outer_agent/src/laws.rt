ghost use Rattle.outer_agent.specs.Ends.{EndsAreSaidWhereDue, PiecesBringNoSuccess, SavesComeOneByOne};
ghost use Rattle.outer_agent.specs.Laws.{PiecesMakeNoDifference};

/// Does nothing: its contract is a law. What an agent does about a stream doesn't depend on the pieces
/// in which it comes.
pub fn pieces_make_no_difference()
    ensures { PiecesMakeNoDifference }
{}

/// Does nothing: its contract is a law. Whatever came to an agent, the end of a save that it is told is
/// said exactly where its outer manager waits for that: behind a Checkpoint, where neither Forget,
/// Shutdown, Drop nor an end came since.
pub fn ends_are_said_where_due()
    ensures { EndsAreSaidWhereDue }
{}

/// Does nothing: its contract is a law. No act about a piece says that a save succeeded: that is said
/// as it is told alone.
pub fn pieces_bring_no_success()
    ensures { PiecesBringNoSuccess }
{}

/// Does nothing: its contract is a law. Whatever came to an agent, a piece has it ask for a save, or
/// for the session's end, only where the end of no save is due.
pub fn saves_come_one_by_one()
    ensures { SavesComeOneByOne }
{}
