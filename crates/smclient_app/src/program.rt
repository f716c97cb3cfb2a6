ghost use Rattle.std.specs.Prelude.{◌≡◌, ◌≤◌, [], length, map, string_bytes, IfErr, IfOk};
ghost use Rattle.sm_world.specs.Outside.{Added, NotFallen};
ghost use Rattle.smclient_app.specs.Entries.{HasCookie};
ghost use Rattle.smclient_app.specs.Statuses.{Answers, FileIs, IsEarly, IsReady, Runs, RunsBy, peer_fault};

use crate::entries::{EntryRefusal, read_cookie};
use crate::fault::{Fault, ending};
use crate::joining::join_session;
use crate::lines::print_lines;
use client_callbacks::Join;
use client_peer::Peer;
use client_words::{Choices, WordsRefusal, read_choices};
use ice_cookie::Cookie;
use ice_values::Array8;
use owned_lists::{NoMemory, OctetsList};
use program_frame::conclude;
use sm_world::{Console, Failure};
use std::alloc::Global;

/// The fault of a peer that failed.
fn peer_fault(failure: Failure) -> Fault
    ensures { result ≡ peer_fault failure }
{
    match failure {
        Failure::Failed => Fault::Link,
        Failure::NoMemory => Fault::NoMemory,
    }
}

/// Fetches the authority file and finds the client's cookie in it.
fn fetch_cookie<P: Peer>(
    alloc: Global,
    peer: &mut P,
    choices: &Choices<'_>,
) -> Result<Cookie, Fault>
    ensures found { IfOk result (λ cookie.
        FileIs (P.outside peer.old).files choices.now.authority.now (λ bytes.
        HasCookie choices.now.socket.now bytes cookie)) }
    ensures early { IfErr result (IsEarly choices.now (P.outside peer.old) (P.outside peer.new)) }
    ensures told { (P.outside peer.new).told ≡ (P.outside peer.old).told }
    ensures counts { NotFallen (P.outside peer.old).faults (P.outside peer.new).faults }
{
    let file = match peer.fetch(choices.authority) {
        Ok(file) => file,
        Err(failure) => return Err(peer_fault(failure)),
    };
    match read_cookie(alloc, file.as_slice(), choices.socket) {
        Ok(cookie) => Ok(cookie),
        Err(EntryRefusal::NoEntry) => Err(Fault::NoEntry),
        Err(EntryRefusal::NoMemory) => Err(Fault::NoMemory),
    }
}

/// What a client joins with that has noted nothing yet.
fn first_join(alloc: Global, choices: &Choices<'_>, cookie: Cookie) -> Result<Join, NoMemory>
    ensures { IfOk result (λ join.
        join ≡ record {
          cookie = cookie;
          previous = choices.now.id.now;
          saves = choices.now.saves;
          lines = [];
        }) }
{
    Ok(Join {
        cookie,
        previous: Array8::from_slice(alloc, choices.id.as_bytes())?,
        saves: choices.saves,
        lines: OctetsList::new(alloc),
    })
}

/// Connects, once it is known what to join with.
fn connect<P: Peer>(alloc: Global, peer: &mut P, choices: &Choices<'_>) -> Result<Join, Fault>
    ensures ready { IfOk result (IsReady choices.now (P.outside peer.old).files) }
    ensures early { IfErr result (IsEarly choices.now (P.outside peer.old) (P.outside peer.new)) }
    ensures told { (P.outside peer.new).told ≡ (P.outside peer.old).told }
    ensures counts { NotFallen (P.outside peer.old).faults (P.outside peer.new).faults }
{
    let cookie = match fetch_cookie(alloc, peer, choices) {
        Ok(cookie) => cookie,
        Err(fault) => return Err(fault),
    };
    let join = match first_join(alloc, choices, cookie) {
        Ok(join) => join,
        Err(NoMemory) => return Err(Fault::NoMemory),
    };
    match peer.connect(choices.socket) {
        Ok(()) => Ok(join),
        Err(failure) => Err(peer_fault(failure)),
    }
}

/// Joins the session, and prints what the client noted.
fn join<P: Peer + Console>(
    alloc: Global,
    world: &mut P,
    choices: &Choices<'_>,
    turns: u64,
) -> Result<(), Fault>
    requires id { length choices.now.id.now ≤ 512 }
    requires program { length choices.now.program.now ≤ 512 }
    requires saves { 1 ≤ choices.now.saves }
    ensures runs { Added (P.outside world.old).told (P.outside world.new).told
        (RunsBy choices.now (P.outside world.old) (P.outside world.new) turns result) }
    ensures counts { NotFallen (P.outside world.old).faults (P.outside world.new).faults }
{
    let mut join = match connect(alloc, world, choices) {
        Ok(join) => join,
        Err(fault) => return Err(fault),
    };
    let answer = join_session(alloc, world, choices, &mut join, turns);
    let printed = print_lines(world, join.lines.as_slice());
    ending(answer, printed)
}

/// Joins the session that the words name.
fn run_words<P: Peer + Console>(
    alloc: Global,
    words: &[String],
    world: &mut P,
    turns: u64,
) -> Result<(), Fault>
    ensures runs { Added (P.outside world.old).told (P.outside world.new).told
        (Runs (map string_bytes words.now) (P.outside world.old)
        (P.outside world.new) turns result) }
    ensures counts { NotFallen (P.outside world.old).faults (P.outside world.new).faults }
{
    let choices = match read_choices(alloc, words) {
        Ok(choices) => choices,
        Err(WordsRefusal::BadWords) => return Err(Fault::BadWords),
        Err(WordsRefusal::NoMemory) => return Err(Fault::NoMemory),
    };
    join(alloc, world, &choices, turns)
}

/// Runs `smclient` with these words, which leave out the program's name: it fetches the authority
/// file, connects to the manager's socket, joins the session, follows it for at most `turns` receives,
/// and prints what happened. The answer is the program's status.
pub fn smclient_main<P: Peer + Console>(
    alloc: Global,
    words: &[String],
    world: &mut P,
    turns: u64,
) -> u8
    // What each status says of the words, the authority file and the manager's stream, and all that is
    // sent and printed at it.
    ensures answers { Added (P.outside world.old).told (P.outside world.new).told
        (Answers (map string_bytes words.now) (P.outside world.old)
        (P.outside world.new) turns result) }
    ensures counts { NotFallen (P.outside world.old).faults (P.outside world.new).faults }
{
    let ending = run_words(alloc, words, world, turns);
    conclude(alloc, world, ending)
}
