ghost use Rattle.std.specs.Prelude.{◌≡◌, []};
ghost use Rattle.client_machine.specs.Saves.{IsLawful};
ghost use Rattle.client_engine.specs.Answering.{AreFew};

use client_callbacks::{
    Cancels, ClientEnd, Dies, Join, JoinFault, Joiner, Saves, ends_exclude_each_other,
    pieces_make_no_difference,
};
use client_machine::{SaveAnswer, SaveAsk, Stage, Step};
use client_peer::MemPeer;
use ice_cookie::Cookie;
use ice_values::{Array8List, Dialog, PropertyList, SaveStyle};
use owned_lists::{Octets, OctetsList};
use std::alloc::Global;

/// How a client without properties goes on, which talks to the user first where it may.
fn answer_to(alloc: Global, ask: SaveAsk, talked: bool) -> SaveAnswer
    ensures { IsLawful ask result }
{
    let step = match ask.stage {
        Stage::First => {
            if ask.style == SaveStyle::Any && !talked {
                Step::Interact(Dialog::Normal)
            } else {
                Step::Done(true)
            }
        }
        Stage::Second => Step::Done(true),
        Stage::Talking => Step::Talked(false),
        Stage::TalkingTwo => Step::Talked(false),
    };
    SaveAnswer {
        set: PropertyList::new(alloc),
        step,
    }
}

/// A first client of a session that waits for one save.
pub fn first_join(alloc: Global) -> Join
    ensures saves { result.saves ≡ 1 }
    ensures previous { result.previous ≡ [] }
{
    Join {
        cookie: Cookie([0, 1, 2, 3, 4, 5, 6, 7, 8, 9, 10, 11, 12, 13, 14, 15]),
        previous: Octets::new(alloc),
        saves: 1,
        lines: OctetsList::new(alloc),
    }
}

/// The laws of a run with such callbacks, which say nothing where they are called.
fn laws<S: Saves, D: Dies, C: Cancels>() {
    pieces_make_no_difference();
    ends_exclude_each_other::<S, D, C>();
}

/// Runs a client with these callbacks, and drops them.
fn run<S: Saves + Drop, D: Dies + Drop, C: Cancels + Drop>(
    alloc: Global,
    callbacks: (S, D, C),
    peer: &mut MemPeer,
    join: &mut Join,
) -> Result<ClientEnd, JoinFault>
    requires save { S.lawful callbacks.0 }
    requires die { D.lawful callbacks.1 }
    requires cancelled { C.lawful callbacks.2 }
    requires saves { join.old.saves ≡ 1 }
    requires previous { join.old.previous ≡ [] }
    ensures kept { join.new ≡ record join.old { lines = join.new.lines } }
{
    let (save, die, cancelled) = callbacks;
    laws::<S, D, C>();
    let mut joiner = Joiner::new(save, die, cancelled);
    let answer = joiner.run(alloc, peer, join, 1000);
    let _callbacks = joiner.parts();
    answer
}

/// Runs a client that answers by `answer_to` and gives no reasons.
pub fn run_client(
    alloc: Global,
    peer: &mut MemPeer,
    join: &mut Join,
) -> Result<ClientEnd, JoinFault>
    requires saves { join.old.saves ≡ 1 }
    requires previous { join.old.previous ≡ [] }
    ensures kept { join.new ≡ record join.old { lines = join.new.lines } }
{
    let mut talked = false;
    let save = |ask: SaveAsk| -> SaveAnswer
        ensures { IsLawful ask result }
    {
        let answer = answer_to(alloc, ask, talked);
        talked = ask.stage == Stage::Talking;
        answer
    };
    let die = || -> Array8List
        ensures { AreFew result }
    { Array8List::new(alloc) };
    run(alloc, (save, die, || {}), peer, join)
}
