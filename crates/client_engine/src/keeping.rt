ghost use Rattle.std.specs.Prelude.{◌≡◌, ◌≤◌, List, Option, Some, length, IfOk, IfErr, IfSome};
ghost use Rattle.client_engine.specs.Cutting.{Cuts};
ghost use Rattle.client_engine.specs.Driving.{Run, StaysStopped, Step, heeding, reacting};
ghost use Rattle.client_engine.specs.Keeping.{Composes, IsRun, Takes, TakesPiece, fault_in};
ghost use Rattle.client_engine.specs.Messages.{AreShort};
ghost use Rattle.client_engine.specs.Speaking.{HasPlace};
ghost use Rattle.client_engine.specs.declared.engine.Core.{Core};
ghost use Rattle.client_engine.specs.declared.hearing.Cue.{Cue};
ghost use Rattle.protocol_messages.specs.declared.message.Message.{Message};
ghost use Rattle.client_engine.specs.declared.place.Talk.{Talk};

use crate::engine::Taken;

/// Who keeps a client: it says to a W what the client says by itself, and does what each part's cue
/// asks. An N has the client's core, and what its keeper notes of it.
pub trait Keeps<W, N> {
    /// Why a call does nothing more.
    type Fault;

    /// The keeper as its script knows it, what comes to it from without, and what it does.
    ghost Keeper: { Type 0 };

    ghost Reply: { Type 0 };

    ghost Entry: { Type 0 };
    /// What its calls change.
    ghost Desk: { Type 0 };

    ghost core: { N → Core };

    ghost keeper: { N → Self.Keeper };

    ghost desk: { Self → W → N → Self.Desk };

    ghost unasked: { Self.Reply };

    ghost talk_of: { Self.Keeper → Talk };

    ghost stand_at: { Talk → Self.Keeper → Self.Keeper };

    ghost says: { Message → Self.Entry };

    ghost cued: { Self.Keeper → Self.Reply → Cue → Step Self.Keeper Self.Entry };
    /// That so much of a list was done.
    ghost carries: { Self.Desk → Self.Desk → List Self.Entry → Option Self.Fault → Type 0 };

    /// Takes the rest of a piece up to the end of its first part, as `Core::cut` does.
    fn cut(notes: &mut N, left: &[u8]) -> Result<Option<Taken>, Self::Fault>
        ensures cuts { IfOk result (λ taken.
            Cuts (Self.core notes.old) left.now taken (Self.core notes.new)) }
        ensures said { IfOk result (λ taken. IfSome taken (λ part. AreShort part.said)) }
        ensures asked { IfOk result (λ taken.
            IfSome taken (λ part. HasPlace part.cue (Self.core notes.new).talk.place)) }
        ensures some { IfOk result (λ taken. IfSome taken (λ part. 1 ≤ part.count)) }
        ensures within { IfOk result (λ taken.
            IfSome taken (λ part. part.count ≤ length left.now)) }
        ensures keeper { Self.keeper notes.new ≡ Self.stand_at (Self.core notes.new).talk
            (Self.keeper notes.old) }
        ensures desk { (self : Self) (to : W) → Self.desk self to notes.new
            ≡ Self.desk self to notes.old }
        ensures never { IfErr result (λ fault. (d : Self.Desk) (line : List Self.Entry) →
            Self.carries d d line (Some fault)) };

    /// Says what the client says by itself about a part of the stream, and does what its cue asks.
    fn serve(&mut self, to: &mut W, notes: &mut N, taken: Taken) -> Result<(), Self::Fault>
        requires short { AreShort taken.said }
        requires asked { HasPlace taken.cue (Self.core notes.old).talk.place }
        ensures takes { Takes Self.carries (Self.desk self.old to.old notes.old)
            (Self.desk self.new to.new notes.new) (heeding Self.says Self.cued taken.said
            (Self.keeper notes.old) taken.cue) (Self.keeper notes.new) (fault_in result) }
        ensures splitter { (Self.core notes.new).splitter ≡ (Self.core notes.old).splitter };

    ghost talk_is: { (notes : N) → talk_of (keeper notes) ≡ (core notes).talk };

    ghost stands_there: { (keeper : Keeper) → stand_at (talk_of keeper) keeper ≡ keeper };
}

/// Takes the parts that a piece completes: what one brings is done before the next is looked at.
pub fn take_piece<W, N, K: Keeps<W, N>>(
    keeper: &mut K,
    to: &mut W,
    notes: &mut N,
    piece: &[u8],
) -> Result<(), K::Fault>
    requires composes { Composes K.carries }
    requires stops { StaysStopped K.unasked K.talk_of (reacting K.stand_at K.says K.cued) }
    ensures { (run : Run K.Keeper) → IsRun K.talk_of run (K.keeper notes.old)
        (K.core notes.old).splitter → TakesPiece K.carries K.unasked K.talk_of
        (reacting K.stand_at K.says K.cued) (K.desk keeper.old to.old notes.old)
        (K.desk keeper.new to.new notes.new) run piece.now (K.keeper notes.new)
        (K.core notes.new).splitter (fault_in result) }
{
    let mut left = piece;
    while !left.is_empty() {
        let taken = match K::cut(notes, left) {
            Ok(Some(taken)) => taken,
            Ok(None) => return Ok(()),
            Err(fault) => return Err(fault),
        };
        left = &left[taken.count..];
        match keeper.serve(to, notes, taken) {
            Ok(()) => {}
            Err(fault) => return Err(fault),
        }
    }
    Ok(())
}
