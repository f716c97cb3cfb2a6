ghost use Rattle.start_waves.specs.Laws.{EarlierGoFirst, NoneIsLost};

/// Does nothing: its contract is a law of waves. Who waits is of the next wave or waits on, and nobody
/// is both or twice.
pub fn none_is_lost()
    ensures { NoneIsLost }
{}

/// Does nothing: its contract is a law of waves. All of a wave have one priority, which is lower than
/// that of each that waits on behind it.
pub fn earlier_go_first()
    ensures { EarlierGoFirst }
{}
