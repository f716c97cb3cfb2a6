ghost use Rattle.session_state.specs.Stands.{OpeningStands, TakingStands};

/// Does nothing: its contract is a law of every book. What is held after an opening stands for the
/// history of that opening, and has its acts.
pub fn openings_stand()
    ensures { OpeningStands }
{}

/// Does nothing: its contract is a law of every event of a run. Where what is held stands for the
/// history before an event, it does so after the event, and has the acts that came with it.
pub fn takings_stand()
    ensures { TakingStands }
{}
