ghost use Rattle.display_stream.specs.Laws.{DoNotDependOnPieces, MakeUpAStream, HasNoMoreParts};

/// Does nothing: its contract is a law of `Remainder`. The parts of a stream are those of its front, and
/// then those that the rest brings from where the front left off, wherever it is cut in two.
pub fn parts_do_not_depend_on_pieces()
    ensures { DoNotDependOnPieces }
{}

/// Does nothing: its contract is a law of `Remainder`. A stream is its parts, one after the other, each
/// as long as it states, and then less than a part, or a part that states too much.
pub fn parts_make_up_a_stream()
    ensures { MakeUpAStream }
{}

/// Does nothing: its contract is a law of `Remainder`. A stream in which a part states too much has the
/// parts in front of it, whatever comes behind.
pub fn a_broken_stream_has_no_more_parts()
    ensures { HasNoMoreParts }
{}
