ghost use Rattle.std.specs.Prelude.{◌≡◌, [], ℕ, List, length, false, IfOk};
ghost use Rattle.client_engine.specs.Messages.{spelled};
ghost use Rattle.protocol_messages.specs.declared.message.Message.TheVariants.{Ice};
ghost use Rattle.ice_cookie.specs.declared.cookies.Cookie.{Cookie};
ghost use Rattle.ice_messages.specs.declared.message.IceMessage.TheVariants.{ByteOrder};
ghost use Rattle.ice_values.specs.declared.numbers.Endian.TheVariants.{Lsb};
ghost use Rattle.named_joiner.specs.Script.{Callbacks, is_over};
ghost use Rattle.named_joiner.specs.Standing.{start_stand};
ghost use Rattle.sm_world.specs.Outside.{NotFallen, Outside};
ghost use Rattle.smwrap_app.specs.Turning.{Amid, Delivers, Finishes, Listens};

use crate::fault::{Fault, ended, peer_fault};
use client_peer::Peer;
use ice_values::Array8List;
use named_joiner::{HearFault, NamedDies, NamedJoiner, NamedReply, NamedSaves};
use owned_lists::NoMemory;
use sm_world::Failure;
use std::alloc::Global;

/// A client that gives no reasons as it closes.
#[derive(Drop)]
pub struct Silent {
    pub alloc: Global,
}

impl NamedDies for Silent {
    ghost use Rattle.std.specs.Prelude.{◌≡◌, [], Some};

    ghost lawful = { λ s. Unit {0} };

    ghost gives = { λ s reasons t. reasons ≡ Some [] };

    fn reasons(&mut self) -> Option<Array8List> {
        Some(Array8List::new(self.alloc))
    }
}

/// How many bytes are received at once.
const PIECE_LEN: usize = 4096;

/// Room for a piece of the stream.
fn room(alloc: Global) -> Result<Vec<u8>, NoMemory>
    ensures { IfOk result (λ room. length room.items ≡ 4096) }
{
    Ok(vec![in alloc; 0; PIECE_LEN]?)
}

/// Sends these bytes, where there are any.
fn deliver<P: Peer>(peer: &mut P, bytes: &[u8]) -> Result<(), Failure>
    ensures { Delivers bytes.now (P.outside peer.old) (P.outside peer.new) result }
{
    if bytes.is_empty() {
        return Ok(());
    }
    peer.deliver(bytes)
}

/// Receives once, and gives what the client says to that.
fn hear_next<P: Peer, S: NamedSaves, D: NamedDies>(
    peer: &mut P,
    joiner: &mut NamedJoiner<S, D>,
    room: &mut [u8],
) -> Result<NamedReply, Fault>
    requires room { length room.old ≡ 4096 }
    requires going { is_over joiner.old.stand.ending ≡ false }
    ensures listens { Listens S.answers D.gives result
        (P.outside peer.old) (P.outside peer.new) joiner.old joiner.new }
    ensures going { IfOk result
        (λ reply. reply.end ≡ None → is_over joiner.new.stand.ending ≡ false) }
    ensures counts { NotFallen (P.outside peer.old).faults (P.outside peer.new).faults }
    ensures room { length room.new ≡ 4096 }
{
    let count = match peer.receive(room) {
        Ok(count) => count,
        Err(failure) => return Err(peer_fault(failure)),
    };
    if count == 0 {
        return Err(Fault::StreamEnded);
    }
    match joiner.hear(&room[..count]) {
        Ok(reply) => Ok(reply),
        Err(HearFault::NoMemory) => Err(Fault::NoMemory),
        Err(HearFault::Stopped) => unreachable!(),
    }
}

/// Follows the session to the client's end: at most so many receives.
fn listen<P: Peer, S: NamedSaves, D: NamedDies>(
    peer: &mut P,
    joiner: &mut NamedJoiner<S, D>,
    room: &mut [u8],
    turns: u64,
) -> Result<(), Fault>
    requires room { length room.old ≡ 4096 }
    requires going { is_over joiner.old.stand.ending ≡ false }
    ensures { (cookie : Cookie) (previous : List ℕ) (first : Outside) (begin : Callbacks S D)
        → Amid S.answers D.gives cookie previous first begin (P.outside peer.old) joiner.old 0 []
        → Finishes S.answers D.gives cookie previous turns
        first begin (P.outside peer.new) joiner.new.callbacks result }
{
    for _ in 0..turns {
        let reply = match hear_next(peer, joiner, room) {
            Ok(reply) => reply,
            Err(fault) => return Err(fault),
        };
        match deliver(peer, reply.bytes.as_slice()) {
            Ok(()) => {}
            Err(failure) => return Err(peer_fault(failure)),
        }
        if let Some(end) = reply.end {
            return ended(end);
        }
    }
    Err(Fault::Spent)
}

/// Sends what the client says at once, and follows the session to its end: at most so many receives.
pub fn follow<P: Peer, S: NamedSaves, D: NamedDies>(
    alloc: Global,
    peer: &mut P,
    joiner: &mut NamedJoiner<S, D>,
    greeting: &[u8],
    turns: u64,
) -> Result<(), Fault>
    requires greeting { greeting.now ≡ spelled (Ice (ByteOrder Lsb)) }
    requires going { is_over joiner.old.stand.ending ≡ false }
    ensures { (cookie : Cookie) (previous : List ℕ)
        → joiner.old.stand ≡ start_stand cookie previous
        → Finishes S.answers D.gives cookie previous turns
        (P.outside peer.old) joiner.old.callbacks (P.outside peer.new) joiner.new.callbacks result }
{
    let mut room = match room(alloc) {
        Ok(room) => room,
        Err(NoMemory) => return Err(Fault::NoMemory),
    };
    match deliver(peer, greeting) {
        Ok(()) => listen(peer, joiner, &mut room, turns),
        Err(failure) => Err(peer_fault(failure)),
    }
}
