ghost use Rattle.window_follower.specs.Examples.{Examples};
ghost use Rattle.window_follower.specs.Laws.{Follows};

/// Does nothing: its contract is laws of all that a follower is told. A window comes by lists alone and
/// leaves only by itself; an event that a program sent changes nothing; changes are heard before they are
/// asked for, and each is asked for; few questions are open, and each has the reply of its request.
pub fn windows_are_followed()
    ensures { Follows }
{}

/// Does nothing: its contract is what the definitions say of windows as they were met, and of answers in
/// their order.
pub fn windows_as_they_were_met()
    ensures { Examples }
{}
