ghost use Rattle.std.specs.Prelude.{◌≡◌, ◌≤◌, [], ◌∷◌, length, IfOk};
ghost use Rattle.ice_framing.specs.Frames.{beginning};
ghost use Rattle.ice_messages.specs.declared.message.IceMessage.TheVariants.{ByteOrder};
ghost use Rattle.ice_values.specs.declared.numbers.Endian.TheVariants.{Lsb};
ghost use Rattle.protocol_messages.specs.declared.message.Message.TheVariants.{Ice};
ghost use Rattle.client_callbacks.specs.Doing.{Sends, failure_in, keeper_of};
ghost use Rattle.client_callbacks.specs.Script.{start};

use crate::callbacks::{Cancels, Dies, Saves};
use crate::ends::{ClientEnd, Ending, JoinFault, fault};
use crate::joiner::{Join, Joiner};
use crate::progress::Progress;
use crate::saying::say;
use client_engine::{greeting, take_piece};
use client_peer::Peer;
use owned_lists::NoMemory;
use sm_world::Failure;
use std::alloc::Global;
use std::mem;

/// How many bytes are received at once.
const PIECE_LEN: usize = 4096;

/// Room for a piece of the stream.
fn room(alloc: Global) -> Result<Vec<u8>, NoMemory>
    ensures { IfOk result (λ room. length room.items ≡ 4096) }
{
    Ok(vec![in alloc; 0; PIECE_LEN]?)
}

/// Begins with ByteOrder.
fn begin<P: Peer>(alloc: Global, peer: &mut P, join: &Join) -> Result<Progress, Failure>
    requires { length join.now.previous ≤ 512 }
    ensures sends { Sends (P.outside peer.old) (P.outside peer.new) (Ice (ByteOrder Lsb) ∷ [])
        (failure_in result) }
    ensures keeper { IfOk result (λ progress. keeper_of progress
        ≡ (start join.now.cookie join.now.previous join.now.saves).keeper) }
    ensures splitter { IfOk result (λ progress. progress.core.splitter ≡ beginning) }
{
    let progress = match Progress::begin(alloc, join) {
        Ok(progress) => progress,
        Err(NoMemory) => return Err(Failure::NoMemory),
    };
    match say(alloc, peer, &greeting()) {
        Ok(()) => Ok(progress),
        Err(failure) => Err(failure),
    }
}

impl<S: Saves, D: Dies, C: Cancels> Joiner<S, D, C> {
    ghost use Rattle.std.specs.Prelude.{◌≡◌, ◌≤◌, length, None};
    ghost use Rattle.client_engine.specs.Driving.{Run};
    ghost use Rattle.client_callbacks.specs.Doing.{IsRun, TakesTurn, desk, failure_in, keeper_of};
    ghost use Rattle.client_callbacks.specs.Running.{FollowsRun, Joins};
    ghost use Rattle.client_callbacks.specs.Script.{Keeper};

    /// Receives once, and does what that brings.
    fn take_turn<P: Peer>(
        &mut self,
        peer: &mut P,
        progress: &mut Progress,
        room: &mut [u8],
    ) -> Result<(), Failure>
        requires { length room.old ≡ 4096 }
        ensures takes { (run : Run Keeper) → IsRun run progress.old → progress.old.ending ≡ None →
            TakesTurn S.answers D.gives C.hears (desk
            (P.outside peer.old) progress.old.lines self.old)
            (desk (P.outside peer.new) progress.new.lines self.new) run progress.new
            (failure_in result) }
        ensures room { length room.new ≡ 4096 }
    {
        let count = match peer.receive(room) {
            Ok(count) => count,
            Err(failure) => return Err(failure),
        };
        if count == 0 {
            progress.ending = Some(Ending::StreamEnded(progress.core.phase()));
            return Ok(());
        }
        take_piece(self, peer, progress, &room[..count])
    }

    /// Follows the session to the client's end: at most so many receives.
    fn follow<P: Peer>(
        &mut self,
        peer: &mut P,
        progress: &mut Progress,
        room: &mut [u8],
        turns: u64,
    ) -> Result<ClientEnd, JoinFault>
        requires { length room.old ≡ 4096 }
        ensures { (run : Run Keeper) → IsRun run progress.old → progress.old.ending ≡ None →
            FollowsRun S.answers D.gives C.hears run turns
            (desk (P.outside peer.old) progress.old.lines self.old)
            (desk (P.outside peer.new) progress.new.lines self.new) result }
    {
        for _ in 0..turns {
            match self.take_turn(peer, progress, room) {
                Ok(()) => {}
                Err(failure) => return Err(fault(failure)),
            }
            if let Some(ending) = progress.ending {
                return ending.answer();
            }
        }
        Err(JoinFault::Spent)
    }

    /// Joins the session behind a peer that is connected, and follows it to the client's end: at most
    /// so many receives (XSMP, chapter 9; ICE, chapter 6). The noted lines grow. Nothing more is sent
    /// after an answer.
    pub fn run<P: Peer>(
        &mut self,
        alloc: Global,
        peer: &mut P,
        join: &mut Join,
        turns: u64,
    ) -> Result<ClientEnd, JoinFault>
        requires saves { 1 ≤ join.old.saves }
        requires previous { length join.old.previous ≤ 512 }
        ensures joins { Joins S.answers D.gives C.hears join.old.cookie join.old.previous
            join.old.saves turns (desk (P.outside peer.old) join.old.lines self.old)
            (desk (P.outside peer.new) join.new.lines self.new) result }
        ensures kept { join.new ≡ record join.old { lines = join.new.lines } }
    {
        let mut room = match room(alloc) {
            Ok(room) => room,
            Err(NoMemory) => return Err(JoinFault::NoMemory),
        };
        let mut progress = match begin(alloc, peer, join) {
            Ok(progress) => progress,
            Err(failure) => return Err(fault(failure)),
        };
        mem::swap(&mut progress.lines, &mut join.lines);
        let answer = self.follow(peer, &mut progress, &mut room, turns);
        mem::swap(&mut progress.lines, &mut join.lines);
        answer
    }
}
