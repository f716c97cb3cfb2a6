ghost use Rattle.message_streams.specs.Streams.{CutsAreOfMessages, PiecesAreOfMessages, StreamsAreOfMessages};

/// Does nothing: its contract is a law of streams. The parts of what a stream holds of the bytes of
/// messages are the frames of the first of them, and nothing of the others is lost.
pub fn cuts_are_of_messages()
    ensures { CutsAreOfMessages }
{}

/// Does nothing: its contract is a law of streams. A piece of what is under way brings the first of
/// the messages, and the rest is held or under way still.
pub fn pieces_are_of_messages()
    ensures { PiecesAreOfMessages }
{}

/// Does nothing: its contract is a law of streams. The same told of all that has come of one: the parts
/// that a piece brings are the frames of the first messages.
pub fn streams_are_of_messages()
    ensures { StreamsAreOfMessages }
{}
