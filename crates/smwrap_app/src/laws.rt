ghost use Rattle.smwrap_app.specs.Copies.{CopiesAreApart, TellsWhatItAnswers};

/// Does nothing: its contract is a law. Of what a client says, only that tells of saves which its
/// callback answered: what it sets, and that it has saved.
pub fn a_client_tells_what_it_answers()
    ensures { TellsWhatItAnswers }
{}

/// Does nothing: its contract is a law. The numbers of a run's copies rise, so that no two of them
/// have one path, and no command that removes a copy names another.
pub fn copies_are_apart()
    ensures { CopiesAreApart }
{}
