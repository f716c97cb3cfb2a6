ghost use Rattle.end_schedules.specs.Laws.{AllEndsAgree, AnswersAreFew, BothEndsAgree, ClientSendsNoBadState, ManagerSendsNoBadState, OthersPass, SavesAreOfTheRound, SettlingPasses};

/// Does nothing: its contract is a law of every run. Whatever comes to the manager from elsewhere,
/// a client is only given something in a phase where that has its place, or is shut.
pub fn others_pass()
    ensures { OthersPass }
{}

/// Does nothing: its contract is a law of every run. The same holds of all that the manager does
/// behind the direct answer to a client's own message.
pub fn settling_passes()
    ensures { SettlingPasses }
{}

/// Does nothing: its contract is a law of every run. Who saves was asked so by the running round.
pub fn saves_are_of_the_round()
    ensures { SavesAreOfTheRound }
{}

/// Does nothing: its contract is a law of every schedule. The manager never answers a client by
/// BadState that asks only what it may, nor as it shuts the connection.
pub fn manager_sends_no_bad_state()
    ensures { ManagerSendsNoBadState }
{}

/// Does nothing: its contract is a law of every schedule. A client never takes a message that it
/// has to answer by BadState, nor once the connection was shut or broke.
pub fn client_sends_no_bad_state()
    ensures { ClientSendsNoBadState }
{}

/// Does nothing: its contract is a law of every schedule. As long as the connection is live, both
/// ends agree once all is taken that is under way.
pub fn both_ends_agree()
    ensures { BothEndsAgree }
{}

/// Does nothing: its contract is a law of every schedule. A client answers no save twice.
pub fn answers_are_few()
    ensures { AnswersAreFew }
{}

/// Does nothing: its contract is a law of every schedule of a manager and any number of clients.
/// All of this holds of the manager and each client.
pub fn all_ends_agree()
    ensures { AllEndsAgree }
{}
