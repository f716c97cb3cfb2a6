ghost use Rattle.client_engine.specs.Driving.{ComesInParts, IsStillOnceStopped, Step};
ghost use Rattle.client_engine.specs.declared.hearing.Heard.{Heard};
ghost use Rattle.client_engine.specs.declared.place.Talk.{Talk};

/// Does nothing: its contract is a law of any keeper. One whose client has stopped does nothing,
/// whatever comes.
pub fn one_who_stopped_does_nothing<K, R, E>()
    ensures { (unasked : R) (talk_of : K → Talk) (reacts : K → Heard → R → Step K E) →
        IsStillOnceStopped unasked talk_of reacts }
{}

/// Does nothing: its contract is a law of any keeper. What it does about a stream doesn't depend on
/// the pieces in which it comes.
pub fn a_piece_comes_in_parts<K, R, E>()
    ensures { (unasked : R) (talk_of : K → Talk) (reacts : K → Heard → R → Step K E) →
        ComesInParts unasked talk_of reacts }
{}
