ghost use Rattle.std.specs.Prelude.{◌≡◌, ◌≢◌, ◌<◌, ℕ, List, Ok, Err, IfErr, IfOk};
ghost use Rattle.sm_world.specs.Outside.{Added, NotFallen, Outside, TakesNext, adds, of_ok};
ghost use Rattle.sm_world.specs.declared.effects.Effect.TheVariants.{Heard};
ghost use Rattle.checkpoint_records.specs.Books.{choose};
ghost use Rattle.checkpoint_records.specs.Rules.{IsName};
ghost use Rattle.checkpoint_records.specs.declared.records.Book.{Book as AnyBook};
ghost use Rattle.checkpoint_slots.specs.Causes.{IsSettled};
ghost use Rattle.checkpoint_slots.specs.Layout.{store_size};
ghost use Rattle.checkpoint_slots.specs.Recovery.{Recovers};
ghost use Rattle.client_engine.specs.Driving.{Run};
ghost use Rattle.client_engine.specs.Messages.{spelled};
ghost use Rattle.ice_messages.specs.declared.message.IceMessage.TheVariants.{ByteOrder};
ghost use Rattle.ice_values.specs.declared.numbers.Endian.TheVariants.{Lsb};
ghost use Rattle.protocol_messages.specs.declared.message.Message.TheVariants.{Ice};
ghost use Rattle.session_engine.specs.Carries.{IsReady};
ghost use Rattle.session_engine.specs.Causes.{HasCause};
ghost use Rattle.session_engine.specs.Shown.{IsShown, all_cut};
ghost use Rattle.outer_agent.specs.Script.{Keeper};
ghost use Rattle.nested_session.specs.Looping.{Begins, GoesFurther, InLoop};
ghost use Rattle.nested_session.specs.Promise.{NestKeepsItsWord};
ghost use Rattle.nested_session.specs.Serving.{Nesting, run_of};
ghost use Rattle.nested_session.specs.Standing.{IsOfOuter, ShowsOn};

use crate::nest::{Answered, Nest};
use crate::saying::send_outer;
use outer_agent::Agent;
use outer_world::Outer;
use owned_lists::Octets;
use session_engine::{Config, ServeFault, Session};
use sm_world::{Console, Disk, Event, Failure, Links, Spawner};
use std::alloc::Global;

/// The next event.
fn hear<W: Links>(world: &mut W) -> Result<Event, ServeFault>
    ensures effects { (W.outside world.new).told ≡ adds (W.outside world.old).told
        (of_ok Heard result) }
    ensures coming { TakesNext (W.outside world.old).coming (W.outside world.new).coming result }
    ensures able { IfErr result IsOfOuter }
    ensures input { (W.outside world.new).input ≡ (W.outside world.old).input }
    ensures first { (W.outside world.new).first ≡ (W.outside world.old).first }
    ensures size { (W.outside world.new).size ≡ (W.outside world.old).size }
    ensures counts { NotFallen (W.outside world.old).faults (W.outside world.new).faults }
    ensures cause { IfErr result
        (HasCause (W.outside world.old).faults (W.outside world.new).faults) }
{
    match world.next() {
        Ok(event) => Ok(event),
        Err(Failure::Failed) => Err(ServeFault::LinkFault),
        Err(Failure::NoMemory) => Err(ServeFault::NoMemory),
    }
}

/// Opens the store of the session, and says at once to the outer manager what is to be said first.
fn begin<W: Disk + Links + Spawner + Console + Outer>(
    alloc: Global,
    world: &mut W,
    config: Config,
    agent: Agent,
    first: Octets,
) -> Result<Nest, ServeFault>
    requires named { IsName config.session }
    requires first { first ≡ spelled (Ice (ByteOrder Lsb)) }
    ensures begins { (turns : ℕ) → Begins config turns (run_of agent) first (W.outside world.old)
        (W.outside world.new) result }
    ensures shown { IfOk result (λ nest. IsShown all_cut nest.session.engine) }
    ensures input { (W.outside world.new).input ≡ (W.outside world.old).input }
    ensures first { (W.outside world.new).first ≡ (W.outside world.old).first }
    ensures counts { NotFallen (W.outside world.old).faults (W.outside world.new).faults }
    ensures cause { IfErr result
        (HasCause (W.outside world.old).faults (W.outside world.new).faults) }
{
    let session = match Session::start(alloc, world, config) {
        Ok(session) => session,
        Err(fault) => return Err(fault),
    };
    match send_outer(world, first.as_slice()) {
        Ok(()) => {}
        Err(fault) => return Err(fault),
    }
    Ok(Nest {
        session,
        agent: Some(agent),
        awaited: None,
    })
}

/// Hears the next event, and has the nest take it.
fn turn<W: Disk + Links + Spawner + Console + Outer>(
    alloc: Global,
    world: &mut W,
    nest: Nest,
) -> Result<Answered, ServeFault>
    requires size { (W.outside world.old).size ≡ store_size }
    requires shown { IsShown all_cut nest.session.engine }
    ensures further { (config : Config) (turns count : ℕ) (agent : Run Keeper) (first : List ℕ)
        (begun : Outside) → count < turns →
        InLoop config agent first begun (W.outside world.old) count nest →
        GoesFurther config turns agent first begun (W.outside world.new) count result }
    ensures shown { IfOk result ShowsOn }
    ensures input { (W.outside world.new).input ≡ (W.outside world.old).input }
    ensures first { (W.outside world.new).first ≡ (W.outside world.old).first }
    ensures size { (W.outside world.new).size ≡ (W.outside world.old).size }
    ensures counts { NotFallen (W.outside world.old).faults (W.outside world.new).faults }
    ensures cause { IfErr result
        (HasCause (W.outside world.old).faults (W.outside world.new).faults) }
{
    let event = match hear(world) {
        Ok(event) => event,
        Err(fault) => return Err(fault),
    };
    nest.take(alloc, world, event)
}

/// Does what `serve_nested` does, of which that says more.
fn run_nested<W: Disk + Links + Spawner + Console + Outer>(
    alloc: Global,
    world: &mut W,
    config: Config,
    agent: Agent,
    first: Octets,
    turns: u64,
) -> Result<(), ServeFault>
    requires named { IsName config.session }
    requires first { first ≡ spelled (Ice (ByteOrder Lsb)) }
    ensures nests { Nesting config turns (run_of agent) first (W.outside world.old)
        (W.outside world.new) result }
    ensures input { (W.outside world.new).input ≡ (W.outside world.old).input }
    ensures first { (W.outside world.new).first ≡ (W.outside world.old).first }
    ensures counts { NotFallen (W.outside world.old).faults (W.outside world.new).faults }
    ensures cause { IfErr result
        (HasCause (W.outside world.old).faults (W.outside world.new).faults) }
{
    let mut nest = match begin(alloc, world, config, agent, first) {
        Ok(nest) => nest,
        Err(fault) => return Err(fault),
    };
    for _ in 0..turns {
        match turn(alloc, world, nest) {
            Ok(Answered::Goes(next)) => nest = next,
            Ok(Answered::Finished) => return Ok(()),
            Err(fault) => return Err(fault),
        }
    }
    Err(ServeFault::Spent)
}

/// Answers the events of a world until one ends the run, at most `turns` of them, as a manager inside a
/// session: the events of the connection 0 are those of an outer manager, which `agent` is a client of,
/// and `first` is what it says at once. The outer manager's saves are those of the session, and the end
/// of one is told to it once that is on the disk.
pub fn serve_nested<W: Disk + Links + Spawner + Console + Outer>(
    alloc: Global,
    world: &mut W,
    config: Config,
    agent: Agent,
    first: Octets,
    turns: u64,
) -> Result<(), ServeFault>
    requires named { IsName config.session }
    requires first { first ≡ spelled (Ice (ByteOrder Lsb)) }
    ensures nests { Nesting config turns (run_of agent) first (W.outside world.old)
        (W.outside world.new) result }
    // For a store of which no byte was in doubt: at every point each file that a crash could leave has a
    // whole checkpoint of the inner session, and the last one wherever a save was told to have succeeded.
    ensures headline { (file : List ℕ) (stored : AnyBook) → IsSettled (W.outside world.old) file →
        Recovers file (Ok stored) → Added (W.outside world.old).told (W.outside world.new).told
        (NestKeepsItsWord config (choose config.session stored) file (run_of agent) first result) }
    // Where the disk didn't fail the same world can be served again, with the headline.
    ensures ready { (file : List ℕ) → IsSettled (W.outside world.old) file →
        result ≢ Err ServeFault.DiskFault → Added (W.outside world.old).told
        (W.outside world.new).told (IsReady file (W.outside world.new)) }
    ensures input { (W.outside world.new).input ≡ (W.outside world.old).input }
    ensures first { (W.outside world.new).first ≡ (W.outside world.old).first }
    ensures counts { NotFallen (W.outside world.old).faults (W.outside world.new).faults }
    ensures cause { IfErr result
        (HasCause (W.outside world.old).faults (W.outside world.new).faults) }
{
    run_nested(alloc, world, config, agent, first, turns)
}
