ghost use Rattle.sm_world.specs.Outside.{Added, NotFallen};
ghost use Rattle.smrelay_app.specs.Serving.{RunsRelay};

use crate::fault::Fault;
use crate::words::Route;
use byte_relay::serve_relay;
use sm_world::Links;
use std::alloc::Global;

/// Opens the relay's socket, and relays on the world's own links.
pub fn serve_route<W: Links>(
    alloc: Global,
    world: &mut W,
    route: &Route<'_>,
    turns: u64,
) -> Result<(), Fault>
    ensures runs { Added (W.outside world.old).told (W.outside world.new).told
        (RunsRelay route.now.order turns (W.outside world.old) (W.outside world.new) result) }
    ensures counts { NotFallen (W.outside world.old).faults (W.outside world.new).faults }
{
    if let Err(failure) = world.listen(route.socket, route.to) {
        return Err(Fault::of_links(failure));
    }
    match serve_relay(alloc, world, route.order, turns) {
        Ok(()) => Ok(()),
        Err(fault) => Err(Fault::from(fault)),
    }
}
