ghost use Rattle.stream_clients.specs.Following.{PartsAreSteps, PiecesAreSteps, WishesAreSteps};
ghost use Rattle.stream_clients.specs.Taking.{ClientsTakeMessages};

/// Does nothing: its contract is a law of clients. One that speaks takes the message that a frame of its
/// manager spells, and says what that asks of it at once.
pub fn clients_take_messages()
    ensures { ClientsTakeMessages }
{}

/// Does nothing: its contract is a law of clients. What one does by itself that says only what it may is
/// a list of steps of a schedule.
pub fn wishes_are_steps()
    ensures { WishesAreSteps }
{}

/// Does nothing: its contract is a law of clients. What one does about the frames of the messages that
/// wait for it, whatever it says by itself behind each, is a list of steps of a schedule.
pub fn parts_are_steps()
    ensures { PartsAreSteps }
{}

/// Does nothing: its contract is a law of clients. So it is of a piece of the bytes that are under way to
/// one, of any length.
pub fn pieces_are_steps()
    ensures { PiecesAreSteps }
{}
