ghost use Rattle.checkpoint_changes.specs.Laws.{SlotsReadOnce};

/// Does nothing: its contract is a law of all bytes. Those of a slot lead to one book at most, and
/// where they lead to none they are damaged at one place at most.
pub fn slots_read_once()
    ensures { SlotsReadOnce }
{}
