ghost use Rattle.std.specs.Prelude.{◌≡◌, [], ◌∷◌, Option as AnyOption, IfErr};
ghost use Rattle.sm_world.specs.Outside.{adds, on_ok};
ghost use Rattle.sm_world.specs.declared.effects.Effect.TheVariants.{Shut};
ghost use Rattle.client_engine.specs.Driving.{Run};
ghost use Rattle.outer_agent.specs.Script.{Keeper};
ghost use Rattle.nested_session.specs.Nesting.{closed_for, ended_for, outcome_for};
ghost use Rattle.nested_session.specs.Standing.{HasAgent, IsOfOuter, Quiet, Talks, fault_of, sent_on};

use outer_agent::Agent;
use session_engine::ServeFault;
use sm_world::{Conn, Failure, Links};

/// The number of the outer connection.
pub const OUTER: Conn = 0;

/// Why something wasn't said on the outer connection.
fn outer_fault(failure: Failure) -> ServeFault
    ensures { result ≡ fault_of failure }
{
    match failure {
        Failure::Failed => ServeFault::LinkFault,
        Failure::NoMemory => ServeFault::NoMemory,
    }
}

/// Sends these bytes to the outer manager, where there are any.
pub fn send_outer<W: Links>(world: &mut W, bytes: &[u8]) -> Result<(), ServeFault>
    ensures effects { (W.outside world.new).told ≡ adds (W.outside world.old).told
        (on_ok result (sent_on bytes.now)) }
    ensures able { IfErr result IsOfOuter }
    ensures alone { Quiet (W.outside world.old) (W.outside world.new) result }
{
    if bytes.is_empty() {
        return Ok(());
    }
    match world.send(OUTER, bytes) {
        Ok(()) => Ok(()),
        Err(failure) => Err(outer_fault(failure)),
    }
}

/// Shuts the outer connection.
pub fn shut_outer<W: Links>(world: &mut W) -> Result<(), ServeFault>
    ensures effects { (W.outside world.new).told ≡ adds (W.outside world.old).told
        (on_ok result (Shut 0 ∷ [])) }
    ensures able { IfErr result IsOfOuter }
    ensures alone { Quiet (W.outside world.old) (W.outside world.new) result }
{
    match world.shut(OUTER) {
        Ok(()) => Ok(()),
        Err(failure) => Err(outer_fault(failure)),
    }
}

/// Tells an agent how a save ended, and says what it says about that.
pub fn say_end<W: Links>(
    world: &mut W,
    agent: Option<Agent>,
    success: bool,
) -> Result<Option<Agent>, ServeFault>
    ensures said { (run : AnyOption (Run Keeper)) → HasAgent agent run →
        Talks (W.outside world.old).told (W.outside world.new).told (ended_for success run) result }
    ensures alone { Quiet (W.outside world.old) (W.outside world.new) result }
{
    match agent {
        None => Ok(None),
        Some(mut agent) => match agent.ended(success) {
            Ok(bytes) => match send_outer(world, bytes.as_slice()) {
                Ok(()) => Ok(Some(agent)),
                Err(fault) => Err(fault),
            },
            Err(_) => Err(ServeFault::NoMemory),
        },
    }
}

/// The same where the save may have ended.
pub fn say_outcome<W: Links>(
    world: &mut W,
    agent: Option<Agent>,
    ended: Option<bool>,
) -> Result<Option<Agent>, ServeFault>
    ensures said { (run : AnyOption (Run Keeper)) → HasAgent agent run →
        Talks (W.outside world.old).told (W.outside world.new).told (outcome_for ended run) result }
    ensures alone { Quiet (W.outside world.old) (W.outside world.new) result }
{
    match ended {
        Some(success) => say_end(world, agent, success),
        None => Ok(agent),
    }
}

/// Has an agent close, and says what it says as it does.
pub fn say_close<W: Links>(world: &mut W, agent: Option<Agent>) -> Result<Option<Agent>, ServeFault>
    ensures said { (run : AnyOption (Run Keeper)) → HasAgent agent run →
        Talks (W.outside world.old).told (W.outside world.new).told (closed_for run) result }
    ensures alone { Quiet (W.outside world.old) (W.outside world.new) result }
{
    match agent {
        None => Ok(None),
        Some(mut agent) => match agent.close() {
            Ok(bytes) => match send_outer(world, bytes.as_slice()) {
                Ok(()) => Ok(Some(agent)),
                Err(fault) => Err(fault),
            },
            Err(_) => Err(ServeFault::NoMemory),
        },
    }
}
