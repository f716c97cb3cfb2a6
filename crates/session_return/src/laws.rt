ghost use Rattle.session_return.specs.Laws.{AgainIsTheSame, AllSessionsComeBack, DueDiscardsStay, EpochsNeverFall, NothingBackIsDue, NothingBecomesDue, OneSessionBeginsAnew, OtherSessionsStay, ReturnsKeepRules, ThereIsAWayBack};

/// Does nothing: its contract is a law of all books. Where nothing stands in the way, what is left
/// keeps the rules of books.
pub fn returns_keep_rules()
    ensures { ReturnsKeepRules }
{}

/// Does nothing: its contract is a law of all books. A session that is put back has the entries
/// that it was kept with, and each other session has those that it had.
pub fn other_sessions_stay()
    ensures { OtherSessionsStay }
{}

/// Does nothing: its contract is a law of all books. Where all sessions are put back, they are the
/// kept ones.
pub fn all_sessions_come_back()
    ensures { AllSessionsComeBack }
{}

/// Does nothing: its contract is a law of all books. The epoch falls neither below that of the
/// store nor below that of the kept book.
pub fn epochs_never_fall()
    ensures { EpochsNeverFall }
{}

/// Does nothing: its contract is a law of all books. A command that is pending stays pending, or
/// is named, and never both.
pub fn due_discards_stay()
    ensures { DueDiscardsStay }
{}

/// Does nothing: its contract is a law of all books. What is pending afterwards was pending before.
pub fn nothing_becomes_due()
    ensures { NothingBecomesDue }
{}

/// Does nothing: its contract is a law of all books. No pending command discards the state of an
/// entry that came back.
pub fn nothing_back_is_due()
    ensures { NothingBackIsDue }
{}

/// Does nothing: its contract is a law of all books. What is put back once more is as it was.
pub fn again_is_the_same()
    ensures { AgainIsTheSame }
{}

/// Does nothing: its contract is a law of all books. From the book that was there before, the
/// session can be put back as it was.
pub fn there_is_a_way_back()
    ensures { ThereIsAWayBack }
{}

/// Does nothing: its contract is a law of all books. A session that begins anew has no entries, and
/// each other one has those that it had; what is left keeps the rules of books.
pub fn one_session_begins_anew()
    ensures { OneSessionBeginsAnew }
{}
