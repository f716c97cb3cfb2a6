ghost use Rattle.state_saver.specs.Plans.{CopiesHavePathsOfTheirOwn};

/// Does nothing: its contract is a law. No two copies of one state have one path.
pub fn copies_have_paths_of_their_own()
    ensures { CopiesHavePathsOfTheirOwn }
{}
