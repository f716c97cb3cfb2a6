ghost use Rattle.end_agreement.specs.Laws.{AnswersAreOwed, AskingKeeps, ClosingKeeps, CrossingsBegin, EndsAgree, GivingKeeps, HearingKeeps, NothingIsBadState, NothingIsUnexpected, RegisteringAgainKeeps, SavesAreAsked, TakingKeeps};

/// Does nothing: its contract is a law of one client. Both ends meet as the client registers.
pub fn crossings_begin()
    ensures { CrossingsBegin }
{}

/// Does nothing: its contract is a law of one client. Both ends still meet after the client asked
/// for something that it may ask for.
pub fn asking_keeps()
    ensures { AskingKeeps }
{}

/// Does nothing: its contract is a law of one client. Both ends still meet after the client said that
/// it closes, also where it was told to die.
pub fn closing_keeps()
    ensures { ClosingKeeps }
{}

/// Does nothing: its contract is a law of one client. Both ends still meet after the manager took a
/// message and answered it.
pub fn hearing_keeps()
    ensures { HearingKeeps }
{}

/// Does nothing: its contract is a law of one client. No message that the manager takes is answered
/// by BadState.
pub fn nothing_is_bad_state()
    ensures { NothingIsBadState }
{}

/// Does nothing: its contract is a law of one client. Both ends still meet after the manager gave
/// something by itself.
pub fn giving_keeps()
    ensures { GivingKeeps }
{}

/// Does nothing: its contract is a law of one client. Both ends still meet after the client took a
/// message.
pub fn taking_keeps()
    ensures { TakingKeeps }
{}

/// Does nothing: its contract is a law of one client. Both ends still meet after the client
/// registered once more, since its previous ID was refused.
pub fn registering_again_keeps()
    ensures { RegisteringAgainKeeps }
{}

/// Does nothing: its contract is a law of one client. No message that the client takes is answered
/// by BadState.
pub fn nothing_is_unexpected()
    ensures { NothingIsUnexpected }
{}

/// Does nothing: its contract is a law of one client. Once all is taken that is under way, both
/// ends agree.
pub fn ends_agree()
    ensures { EndsAgree }
{}

/// Does nothing: its contract is a law of one client. Each SaveYourselfDone answers a SaveYourself
/// that wasn't answered.
pub fn answers_are_owed()
    ensures { AnswersAreOwed }
{}

/// Does nothing: its contract is a law of one client. A SaveYourselfDone is owed for a
/// SaveYourself.
pub fn saves_are_asked()
    ensures { SavesAreAsked }
{}
