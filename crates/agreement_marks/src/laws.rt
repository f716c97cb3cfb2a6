ghost use Rattle.agreement_marks.specs.Agreements.{AgreedRoundsBeganSince, AgreementsAreWritten, MarkedSavesAreWritten};

/// Does nothing: its contract is a law of every history. Where the mark of the agreed rounds stands above
/// that of the rounds that had begun before, a round of all clients began since then and was agreed.
pub fn agreed_rounds_began_since()
    ensures { AgreedRoundsBeganSince }
{}

/// Does nothing: its contract is a law of every run. Directly before each agreement a book is written.
pub fn agreements_are_written()
    ensures { AgreementsAreWritten }
{}

/// Does nothing: its contract is a law of every run. Where the mark of the agreed rounds stands above that
/// of the rounds that had begun before, a round of all clients began since then, its book was written, and
/// it was agreed.
pub fn marked_saves_are_written()
    ensures { MarkedSavesAreWritten }
{}
