ghost use Rattle.named_joiner.specs.Laws.{PiecesMakeNoDifference};

/// Does nothing: its contract is a law. What a client does about a stream doesn't depend on the pieces
/// in which it comes.
pub fn pieces_make_no_difference()
    ensures { PiecesMakeNoDifference }
{}
