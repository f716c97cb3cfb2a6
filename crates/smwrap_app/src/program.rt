ghost use Rattle.std.specs.Prelude.{◌≡◌, map, string_bytes};
ghost use Rattle.sm_world.specs.Outside.{Added, NotFallen};
ghost use Rattle.smwrap_app.specs.Starting.{IsFit, MayJoin};
ghost use Rattle.smwrap_app.specs.Statuses.{Answers, Runs, RunsBy, plan_by};
ghost use Rattle.smwrap_app.specs.Words.{chosen_of};

use crate::fault::{Fault, peer_fault};
use crate::joining::{Silent, follow};
use crate::starting::{begin, plan_of};
use crate::words::{Choices, read_choices};
use client_peer::Peer;
use ice_cookie::Cookie;
use ice_values::Array8;
use named_joiner::BareJoiner;
use owned_lists::NoMemory;
use program_frame::conclude;
use sm_world::{Console, Spawner};
use state_saver::{Files, SavePlan, Saver};
use std::alloc::Global;

/// Joins the session for a program that runs, behind a peer that is connected.
fn join<P: Peer, F: Files>(
    alloc: Global,
    peer: &mut P,
    files: &mut F,
    choices: &Choices<'_>,
    plan: SavePlan,
    cookie: Cookie,
    turns: u64,
) -> Result<(), Fault>
    requires fit { IsFit (chosen_of choices.now) }
    requires plan { plan ≡ plan_by (chosen_of choices.now) }
    ensures { MayJoin (chosen_of choices.now) cookie turns
        (P.outside peer.old) (P.outside peer.new)
        (F.outside files.old) (F.outside files.new) result }
{
    let previous = match Array8::from_slice(alloc, choices.id.as_bytes()) {
        Ok(previous) => previous,
        Err(NoMemory) => return Err(Fault::NoMemory),
    };
    let (bare, greeting) = match BareJoiner::new(alloc, cookie, previous) {
        Ok(begun) => begun,
        Err(NoMemory) => return Err(Fault::NoMemory),
    };
    let mut joiner = bare.with(Saver::new(alloc, files, plan), Silent { alloc });
    let ending = follow(alloc, peer, &mut joiner, greeting.as_slice(), turns);
    let (saver, _silent) = joiner.parts();
    let _files = saver.into_files();
    ending
}

/// Starts the program with the copy that the words name, and joins the session for it.
fn wrap<P: Peer, F: Files + Spawner>(
    alloc: Global,
    peer: &mut P,
    files: &mut F,
    choices: &Choices<'_>,
    turns: u64,
) -> Result<(), Fault>
    requires { IsFit (chosen_of choices.now) }
    ensures runs { Added (F.outside files.old).told (F.outside files.new).told
        (RunsBy (chosen_of choices.now) turns (P.outside peer.old) (P.outside peer.new)
        (F.outside files.old) (F.outside files.new) result) }
    ensures peer_counts { NotFallen (P.outside peer.old).faults (P.outside peer.new).faults }
    ensures file_counts { NotFallen (F.outside files.old).faults (F.outside files.new).faults }
{
    let plan = match plan_of(alloc, choices) {
        Ok(plan) => plan,
        Err(NoMemory) => return Err(Fault::NoMemory),
    };
    let cookie = match begin(alloc, files, choices, &plan) {
        Ok(cookie) => cookie,
        Err(fault) => return Err(fault),
    };
    match peer.connect(choices.socket) {
        Ok(()) => join(alloc, peer, files, choices, plan, cookie, turns),
        Err(failure) => Err(peer_fault(failure)),
    }
}

/// Runs what the words ask for.
fn run_words<P: Peer, F: Files + Spawner>(
    alloc: Global,
    words: &[String],
    peer: &mut P,
    files: &mut F,
    turns: u64,
) -> Result<(), Fault>
    ensures runs { Added (F.outside files.old).told (F.outside files.new).told
        (Runs (map string_bytes words.now) turns (P.outside peer.old) (P.outside peer.new)
        (F.outside files.old) (F.outside files.new) result) }
    ensures peer_counts { NotFallen (P.outside peer.old).faults (P.outside peer.new).faults }
    ensures file_counts { NotFallen (F.outside files.old).faults (F.outside files.new).faults }
{
    match read_choices(alloc, words) {
        Ok(Some(choices)) => wrap(alloc, peer, files, &choices, turns),
        Ok(None) => Err(Fault::BadWords),
        Err(NoMemory) => Err(Fault::NoMemory),
    }
}

/// Runs `smwrap` with these words, which leave out the program's name: `--socket P`, `--authority A`,
/// `--state S` and `--from N` once each and in any order, perhaps `--id ID`, then `--` and a program
/// of 1 to 16 words. It starts the program, which keeps its state in the file S, joins the session
/// behind the peer for it, and follows the session to the client's end, at most so many receives. The
/// answer is the program's status.
pub fn smwrap_main<P: Peer, F: Files + Spawner + Console>(
    alloc: Global,
    words: &[String],
    peer: &mut P,
    files: &mut F,
    turns: u64,
) -> u8
    // What each status says of the words, of the files, of all that was sent and of the copies that
    // were made.
    ensures answers { Added (F.outside files.old).told (F.outside files.new).told
        (Answers (map string_bytes words.now) turns (P.outside peer.old) (P.outside peer.new)
        (F.outside files.old) (F.outside files.new) result) }
    ensures peer_counts { NotFallen (P.outside peer.old).faults (P.outside peer.new).faults }
    ensures file_counts { NotFallen (F.outside files.old).faults (F.outside files.new).faults }
{
    let ending = run_words(alloc, words, peer, files, turns);
    conclude(alloc, files, ending)
}
