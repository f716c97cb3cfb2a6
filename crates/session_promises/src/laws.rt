ghost use Rattle.session_promises.specs.Promises.{EverySessionIsLawful, EverySessionKeepsTheLaws};

/// Does nothing: its contract is a law of `smd_main`'s clause `answers`. Let the words be those of a
/// session, over a store that recovers. Then at each point of what it adds to the effects what was
/// done keeps the laws, and each file that a crash could leave is safe. So it leaves the other
/// sessions of the store as they were.
pub fn every_session_keeps_the_laws()
    ensures { EverySessionKeepsTheLaws }
{}

/// Does nothing: its contract is a law of the same clause. Let the words be those of a session, over
/// any store, in a world that may tell nothing of itself. Then what was done keeps the laws at each
/// point, over the book that the session opened, where it opened one.
pub fn every_session_is_lawful()
    ensures { EverySessionIsLawful }
{}
