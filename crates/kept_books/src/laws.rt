ghost use Rattle.kept_books.specs.Laws.{AgainKeepsTheSame, EpochsAreKept, OtherSessionsAreKept, TheNewestIsFirst, WhatGoesWasEqualOrSixth};

/// Does nothing: its contract is a law of all shelves. Five are kept of a session at most; one goes
/// where its entries are those of the new one, or as the sixth.
pub fn what_goes_was_equal_or_sixth()
    ensures { WhatGoesWasEqualOrSixth }
{}

/// Does nothing: its contract is a law of all shelves. A login to a session changes nothing of what is
/// kept of others.
pub fn other_sessions_are_kept()
    ensures { OtherSessionsAreKept }
{}

/// Does nothing: its contract is a law of all shelves. What is kept gets a number above all others.
pub fn the_newest_is_first()
    ensures { TheNewestIsFirst }
{}

/// Does nothing: its contract is a law of all shelves. A book whose epoch is the greatest has it still
/// once it is kept.
pub fn epochs_are_kept()
    ensures { EpochsAreKept }
{}

/// Does nothing: its contract is a law of all shelves. What is kept once more leaves what it left.
pub fn again_keeps_the_same()
    ensures { AgainKeepsTheSame }
{}
