ghost use Rattle.std.specs.Prelude.{◌≡◌, IfErr, IfOk};
ghost use Rattle.sm_world.specs.Outside.{Added, NotFallen, adds, of_ok, TakesNext};
ghost use Rattle.sm_world.specs.declared.effects.Effect.TheVariants.{Heard};
ghost use Rattle.byte_relay.specs.Relaying.{is_end as is_end_of};
ghost use Rattle.byte_relay.specs.Serving.{Relays, HasCause, IsOfLinks};

use crate::fault::{RelayFault, link_fault};
use crate::relay::Relay;
use ice_values::Endian;
use sm_world::{Event, Links};
use std::alloc::Global;

/// The next event.
fn hear<W: Links>(world: &mut W) -> Result<Event, RelayFault>
    ensures effects { (W.outside world.new).told ≡ adds (W.outside world.old).told
        (of_ok Heard result) }
    ensures coming { TakesNext (W.outside world.old).coming (W.outside world.new).coming result }
    ensures input { (W.outside world.new).input ≡ (W.outside world.old).input }
    ensures counts { NotFallen (W.outside world.old).faults (W.outside world.new).faults }
    ensures cause { IfErr result
        (HasCause (W.outside world.old).faults (W.outside world.new).faults) }
    ensures of_links { IfErr result IsOfLinks }
{
    match world.next() {
        Ok(event) => Ok(event),
        Err(failure) => Err(link_fault(failure)),
    }
}

/// Whether an event is the last.
fn is_end(event: &Event) -> bool
    ensures { result ≡ is_end_of event.now }
{
    matches!(event, Event::End)
}

/// Relays between the two connections of each pair until End, or until `turns` events were heard.
/// Connections 2k - 1 and 2k are a pair. What is sent on each has the numbers in the order `to`.
///
/// A pair opens as its second connection joins, and both are then told that order. Behind the first
/// frame of each stream, a ByteOrder that isn't passed on, each message goes to the other connection.
/// What is no message there breaks the pair: both are shut. So is whatever comes before the pair is
/// open, and a connection too many.
pub fn serve_relay<W: Links>(
    alloc: Global,
    world: &mut W,
    to: Endian,
    turns: u64,
) -> Result<(), RelayFault>
    // What it adds to the effects is the front of the run over the events that it was brought.
    ensures relays { Added (W.outside world.old).told (W.outside world.new).told
        (Relays to turns (W.outside world.old).coming result) }
    // The input is left alone.
    ensures input { (W.outside world.new).input ≡ (W.outside world.old).input }
    ensures counts { NotFallen (W.outside world.old).faults (W.outside world.new).faults }
    ensures cause { IfErr result
        (HasCause (W.outside world.old).faults (W.outside world.new).faults) }
{
    let mut relay = Relay::new(alloc, to);
    for _ in 0..turns {
        let event = match hear(world) {
            Ok(event) => event,
            Err(fault) => return Err(fault),
        };
        if is_end(&event) {
            return Ok(());
        }
        match relay.take(world, &event) {
            Ok(()) => {}
            Err(fault) => return Err(fault),
        }
    }
    Err(RelayFault::Spent)
}
