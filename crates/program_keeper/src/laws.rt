ghost use Rattle.program_keeper.specs.Closes.{ClosesAreFew};
ghost use Rattle.program_keeper.specs.Due.{ActsAreDue, SavesAreAnswered, StartsAreEarned, TalksEndRightly};
ghost use Rattle.program_keeper.specs.Examples.{WorkedRows};
ghost use Rattle.program_keeper.specs.Laws.{PiecesMakeNoDifference};

/// Does nothing: its contract is a law. What a keeper does about a stream doesn't depend on the pieces
/// in which it comes.
pub fn pieces_make_no_difference()
    ensures { PiecesMakeNoDifference }
{}

/// Does nothing: its contract is a law. Whatever comes to a keeper, it asks windows to close, ends the
/// program and starts it only where that is due: a main window while it has the token, the end behind
/// Die, the start behind a logout that was cancelled.
pub fn acts_are_due()
    ensures { ActsAreDue }
{}

/// Does nothing: its contract is a law. While the client has the token, all that is done is a move of
/// the talk that may be made, the end of a program that has gone, or nothing.
pub fn talks_end_rightly()
    ensures { TalksEndRightly }
{}

/// Does nothing: its contract is a law. Behind all that a keeper does about what came, no SaveYourself
/// waits for it: it is answered, or the client waits for the token, or has it.
pub fn saves_are_answered()
    ensures { SavesAreAnswered }
{}

/// Does nothing: its contract are worked rows, a place of a keeper with what comes to it, and what it
/// does then.
pub fn rows_are_worked()
    ensures { WorkedRows }
{}

/// Does nothing: its contract is a law. A program counts as closed for a logout only by the talk of that
/// logout, in which a window was asked to close; a new save and a cancelled one forget it. So it is
/// started once at most for each.
pub fn starts_are_earned()
    ensures { StartsAreEarned }
{}

/// Does nothing: its contract is a law. However a talk goes on, a window that stands at each of its turns
/// is asked to close four times at most.
pub fn closes_are_few()
    ensures { ClosesAreFew }
{}
