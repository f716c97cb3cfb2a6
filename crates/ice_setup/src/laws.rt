ghost use Rattle.ice_setup.specs.Laws.{SpelledFits};

/// Does nothing: its contract is a law for callers of `take`. What a frame within the limit of
/// 65,544 bytes spells has a body of at most 65,536 bytes, so the answers to it can be sent.
pub fn spelled_messages_fit()
    ensures { SpelledFits }
{}
