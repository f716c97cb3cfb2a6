ghost use Rattle.late_answers.specs.Laws.{OthersAreSentAll, OthersAreHeard, OthersAreLetGo, WordsHaveTheirPlace, AnswersAreOfTheRunningSave, DebtsEnd};
ghost use Rattle.late_answers.specs.Reached.{StatesAreFit};
ghost use Rattle.late_answers.specs.LeaverLaws.{LeaversHaveTheirPlace, LeaversStand, LeaversGoOn, LeaversEnd};

/// Does nothing: its contract is a law of each client that was never told that a logout is called off.
/// What the manager sends it goes out as it came.
pub fn others_are_sent_all()
    ensures { OthersAreSentAll }
{}

/// Does nothing: its contract is a law of each client that was never told that a logout is called off.
/// What it says is handed on.
pub fn others_are_heard()
    ensures { OthersAreHeard }
{}

/// Does nothing: its contract is a law of each client that was never told that a logout is called off.
/// It never counts as one that leaves behind such a logout.
pub fn others_are_let_go()
    ensures { OthersAreLetGo }
{}

/// Does nothing: its contract is a law of each message of the manager's. A word that it hears in the
/// client's place has its place in the phase in which the manager has the client then. The state has to fit
/// (`fits`), as each does by the next law, and the message has to come in its phase (`may_come`): that the
/// manager sends it so is for the manager.
pub fn words_have_their_place()
    ensures { WordsHaveTheirPlace }
{}

/// Does nothing: its contract is a law of each client, from its coming on. Its state fits, whatever it says
/// and however time passes, as long as the manager sends each message in its phase, and to who was asked of
/// a logout what ends one (`is_sent`).
pub fn states_are_fit()
    ensures { StatesAreFit }
{}

/// Does nothing: its contract is a law of each SaveYourselfDone. It is handed on for which the manager
/// waits, or where the client knows of the save that runs and has answered each Ping.
pub fn answers_are_of_the_running_save()
    ensures { AnswersAreOfTheRunningSave }
{}

/// Does nothing: its contract is a law of time. The manager waits no longer than two seconds for who owes
/// an answer.
pub fn debts_end()
    ensures { DebtsEnd }
{}

/// Does nothing: its contract is a law of each client that leaves, of each message of the manager's to a
/// leaver, and of time. What the manager hears in its place has its place in the phase in which the manager
/// has the client then.
pub fn leavers_have_their_place()
    ensures { LeaversHaveTheirPlace }
{}

/// Does nothing: its contract is a law of leavers. One that waits for its turn is in a phase in which it may,
/// and one that has failed in the save that runs has answered it, from its leaving on.
pub fn leavers_stand()
    ensures { LeaversStand }
{}

/// Does nothing: its contract is a law of leavers. One never goes back to where it was, so it is started
/// again once at most.
pub fn leavers_go_on()
    ensures { LeaversGoOn }
{}

/// Does nothing: its contract is a law of time. The end of one that was started again and doesn't come
/// back is handed on.
pub fn leavers_end()
    ensures { LeaversEnd }
{}
