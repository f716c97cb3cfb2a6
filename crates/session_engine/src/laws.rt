ghost use Rattle.std.specs.Prelude.{List, length, ◌≤◌};
ghost use Rattle.sm_world.specs.declared.events.Event.{Event as AnyEvent};
ghost use Rattle.checkpoint_records.specs.declared.records.Book.{Book as AnyBook};
ghost use Rattle.session_engine.specs.Counted.{SavedIsPlaced};
ghost use Rattle.session_engine.specs.Machine.{start, after_all, live_limit};

use crate::config::Config;

/// Does nothing: its contract is a law of the session machine. Whatever came, at most 64
/// connections are live.
pub fn at_most_64_live(config: Config)
    ensures { (book : AnyBook) (events : List AnyEvent) →
        length (after_all (start config book) events).connections ≤ live_limit }
{}

/// Does nothing: its contract is a law of crashes. A file that has a checkpoint behind a front of the
/// script with exactly the deeds done has it in its place: at least as new as the last one decided
/// before the last of these deeds, and no newer than the last one decided before the first deed that
/// is missing.
pub fn checkpoints_are_in_their_place()
    ensures { SavedIsPlaced }
{}
