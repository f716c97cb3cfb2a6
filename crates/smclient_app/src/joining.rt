ghost use Rattle.std.specs.Prelude.{◌≡◌, ◌≤◌, length, [], false, pos};
ghost use Rattle.client_engine.specs.Answering.{AreFew};
ghost use Rattle.smclient_app.specs.Joining.{JoinsBy, Ran};

use crate::rules::Saver;
use client_callbacks::{Cancels, ClientEnd, Dies, Join, JoinFault, Joiner, Saves};
use client_peer::Peer;
use client_words::Choices;
use ice_values::Array8List;
use std::alloc::Global;

/// Runs a client with these callbacks, and hands the one that saves back.
fn follow<P: Peer, S: Saves + Drop, D: Dies + Drop, C: Cancels + Drop>(
    alloc: Global,
    peer: &mut P,
    join: &mut Join,
    turns: u64,
    save: S,
    others: (D, C),
    answer: &mut Result<ClientEnd, JoinFault>,
) -> S
    requires save { S.lawful save }
    requires die { D.lawful others.0 }
    requires cancelled { C.lawful others.1 }
    requires saves { 1 ≤ join.old.saves }
    requires previous { length join.old.previous ≤ 512 }
    ensures ran { Ran S.answers D.gives C.hears (P.outside peer.old)
        (P.outside peer.new) join.old join.new.lines turns
        (record { save = save; die = others.0; cancelled = others.1 }) result answer.new }
    ensures kept { join.new ≡ record join.old { lines = join.new.lines } }
{
    let (die, cancelled) = others;
    let mut joiner = Joiner::new(save, die, cancelled);
    *answer = joiner.run(alloc, peer, join, turns);
    let (save, _die, _cancelled) = joiner.parts();
    save
}

/// Joins a session behind a peer that is connected, as the words say, and notes what happens in the
/// lines of `join`. A client that wants for memory while it saves tells the manager that it couldn't,
/// and the call tells that memory was wanting whatever else happened.
pub fn join_session<P: Peer>(
    alloc: Global,
    peer: &mut P,
    choices: &Choices<'_>,
    join: &mut Join,
    turns: u64,
) -> Result<ClientEnd, JoinFault>
    requires saves { 1 ≤ join.old.saves }
    requires previous { length join.old.previous ≤ 512 }
    requires program { length choices.now.program.now ≤ 512 }
    ensures joins { JoinsBy choices.now (P.outside peer.old)
        (P.outside peer.new) join.old join.new.lines turns result }
    ensures kept { join.new ≡ record join.old { lines = join.new.lines } }
{
    let saver = Saver {
        alloc,
        choices,
        talked: false,
        missing: 0,
    };
    let die = || -> Array8List
        ensures few { AreFew result }
        ensures none { result ≡ [] }
    { Array8List::new(alloc) };
    let mut answer = Err(JoinFault::NoMemory);
    let saver = follow(alloc, peer, join, turns, saver, (die, || {}), &mut answer);
    if saver.missing == 0 {
        answer
    } else {
        Err(JoinFault::NoMemory)
    }
}
