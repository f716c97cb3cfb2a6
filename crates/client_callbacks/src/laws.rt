ghost use Rattle.client_callbacks.specs.Laws.{PiecesMakeNoDifference, HasOneEnd};

use crate::callbacks::{Cancels, Dies, Saves};

/// Does nothing: its contract is a law. What a client does about a stream doesn't depend on the pieces
/// in which it comes.
pub fn pieces_make_no_difference()
    ensures { PiecesMakeNoDifference }
{}

/// Does nothing: its contract is a law of `Joiner::run`'s clause `joins`. Where each callback says
/// one thing in each state, no two answers can hold of one run, but for want of memory.
pub fn ends_exclude_each_other<S: Saves, D: Dies, C: Cancels>()
    ensures { HasOneEnd S.answers D.gives C.hears }
{}
