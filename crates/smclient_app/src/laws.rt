ghost use Rattle.smclient_app.specs.Completeness.{CallsComplete};

/// Does nothing: its contract is a law of `smclient_main`'s clause `answers`, its completeness. Let
/// the words be good, let the authority file have an entry for the socket, and let no count rise.
/// Then the status is that of the end to which the client's script comes for what was received, or
/// 9 after all the turns without such an end, each with all done and printed, or 10.
pub fn calls_are_complete()
    ensures { CallsComplete }
{}
