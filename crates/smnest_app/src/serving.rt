ghost use Rattle.std.specs.Prelude.{◌≡◌, ◌≤◌, length, IfErr, IfOk, OnOk};
ghost use Rattle.sm_world.specs.Outside.{Added, NotFallen, adds};
ghost use Rattle.checkpoint_records.specs.Rules.{IsName};
ghost use Rattle.outer_agent.specs.Standing.{start_stand};
ghost use Rattle.outer_agent.specs.Words.{AreFew};
ghost use Rattle.smclient_app.specs.Entries.{HasCookie};
ghost use Rattle.smclient_app.specs.Statuses.{FileIs};
ghost use Rattle.smd_app.specs.Sessions.{SetsUp, announcing, handing_out};
ghost use Rattle.smnest_app.specs.Rehearsals.{greeting};
ghost use Rattle.smnest_app.specs.Sessions.{IsCutShort, IsLeftOut, RunsSession};
ghost use Rattle.smnest_app.specs.Words.{places_of};

use crate::fault::Fault;
use crate::words::NestPaths;
use ice_cookie::Cookie;
use ice_values::Array8;
use nested_session::serve_nested;
use outer_agent::Agent;
use outer_world::Outer;
use owned_lists::{NoMemory, Octets, OctetsList};
use sm_world::{Console, Disk, Links, Spawner};
use smclient_app::{EntryRefusal, read_cookie};
use smd_app::{Fault as SessionFault, Identity, announce, config_for, hand_out};
use std::alloc::Global;

/// Fetches the file with the outer cookie and finds that in it.
fn fetch_cookie<W: Outer>(
    alloc: Global,
    world: &mut W,
    paths: &NestPaths<'_>,
) -> Result<Cookie, Fault>
    ensures found { IfOk result (λ cookie. FileIs (W.outside world.old).files
        paths.now.authority.now (λ bytes. HasCookie paths.now.outer.now bytes cookie)) }
    ensures none { IfErr result (IsLeftOut (places_of paths.now) (W.outside world.old)
        (W.outside world.new)) }
    ensures told { (W.outside world.new).told ≡ (W.outside world.old).told }
    ensures kept { SetsUp (W.outside world.old) (W.outside world.new) }
{
    let file = match world.fetch(alloc, paths.authority) {
        Ok(file) => file,
        Err(failure) => return Err(Fault::of_links(failure)),
    };
    match read_cookie(alloc, file.as_slice(), paths.outer) {
        Ok(cookie) => Ok(cookie),
        Err(EntryRefusal::NoEntry) => Err(Fault::NoCookie),
        Err(EntryRefusal::NoMemory) => Err(Fault::Session(SessionFault::NoMemory)),
    }
}

/// Hands out the session's own cookie, says where the session is, and connects to the outer manager.
fn set_up<W: Disk + Links + Console + Outer>(
    alloc: Global,
    world: &mut W,
    identity: &Identity,
    paths: &NestPaths<'_>,
) -> Result<(), SessionFault>
    requires host { length identity.now.host ≤ 255 }
    requires socket { length paths.now.own.socket.now ≤ 4096 }
    ensures ok { OnOk result ((W.outside world.new).told ≡ adds
        (adds (W.outside world.old).told (handing_out identity.now (places_of paths.now).own))
        (announcing identity.now (places_of paths.now).own)) }
    ensures cut { IfErr result (λ fault. Added (W.outside world.old).told (W.outside world.new).told
        (IsCutShort identity.now (places_of paths.now) (W.outside world.old) (W.outside world.new)
        fault)) }
    ensures kept { SetsUp (W.outside world.old) (W.outside world.new) }
{
    if let Err(fault) = hand_out(alloc, world, identity, &paths.own) {
        return Err(fault);
    }
    if let Err(fault) = announce(alloc, world, identity, &paths.own) {
        return Err(fault);
    }
    match world.open_outer(paths.outer) {
        Ok(()) => Ok(()),
        Err(failure) => Err(SessionFault::of_links(failure)),
    }
}

/// The agent that joins the outer manager with this cookie, and what it says at once.
fn agent_for(
    alloc: Global,
    cookie: Cookie,
    id: &str,
    words: OctetsList,
) -> Result<(Agent, Octets), NoMemory>
    requires id { length id.now ≤ 512 }
    requires few { AreFew words }
    ensures agent { IfOk result (λ begun. begun.0 ≡ start_stand cookie id.now words) }
    ensures first { IfOk result (λ begun. begun.1 ≡ greeting) }
{
    let previous = Array8::from_slice(alloc, id.as_bytes())?;
    Agent::new(alloc, cookie, previous, words)
}

/// Finds the outer cookie, hands out the session's own, says where the session is, connects to the
/// outer manager, and serves on the world's own links and store.
pub fn serve_inside<W: Disk + Links + Spawner + Console + Outer>(
    alloc: Global,
    world: &mut W,
    identity: &Identity,
    paths: &NestPaths<'_>,
    words: OctetsList,
    turns: u64,
) -> Result<(), Fault>
    requires host { length identity.now.host ≤ 255 }
    requires socket { length paths.now.own.socket.now ≤ 4096 }
    requires session { IsName paths.now.own.session.now }
    requires id { length paths.now.id.now ≤ 512 }
    requires few { AreFew words }
    ensures runs { Added (W.outside world.old).told (W.outside world.new).told
        (RunsSession words identity.now (places_of paths.now) turns (W.outside world.old)
        (W.outside world.new) result) }
    ensures counts { NotFallen (W.outside world.old).faults (W.outside world.new).faults }
{
    let cookie = match fetch_cookie(alloc, world, paths) {
        Ok(cookie) => cookie,
        Err(fault) => return Err(fault),
    };
    match set_up(alloc, world, identity, paths) {
        Ok(()) => {}
        Err(fault) => return Err(Fault::Session(fault)),
    }
    let (agent, first) = match agent_for(alloc, cookie, paths.id, words) {
        Ok(begun) => begun,
        Err(NoMemory) => return Err(Fault::Session(SessionFault::NoMemory)),
    };
    let config = match config_for(alloc, identity, &paths.own) {
        Ok(config) => config,
        Err(NoMemory) => return Err(Fault::Session(SessionFault::NoMemory)),
    };
    match serve_nested(alloc, world, config, agent, first, turns) {
        Ok(()) => Ok(()),
        Err(fault) => Err(Fault::Session(SessionFault::from(fault))),
    }
}
