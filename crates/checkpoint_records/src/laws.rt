ghost use Rattle.checkpoint_records.specs.Laws.{BooksReadBack, BytesStandForOne, ChoicesAreUndone, ChoicesKeepRules, ChoicesKeepSessions};

/// Does nothing: its contract is a law of every book. What spells a book is read as that book.
pub fn books_read_back()
    ensures { BooksReadBack }
{}

/// Does nothing: its contract is a law of all bytes. They spell one book at most, and where they
/// spell none they are damaged at one place at most.
pub fn bytes_stand_for_one()
    ensures { BytesStandForOne }
{}

/// Does nothing: its contract is a law of every book. Whichever session is chosen, its sessions are
/// the same.
pub fn choices_keep_sessions()
    ensures { ChoicesKeepSessions }
{}

/// Does nothing: its contract is a law of every book. Whichever session is chosen, the book keeps
/// the rules.
pub fn choices_keep_rules()
    ensures { ChoicesKeepRules }
{}

/// Does nothing: its contract is a law of every book. Another session is chosen and then the first
/// one again: that is the first book.
pub fn choices_are_undone()
    ensures { ChoicesAreUndone }
{}
