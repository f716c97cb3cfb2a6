ghost use Rattle.keeper_clients.specs.Agents.{AreFree as AgentsAreFree, LivesAreFree};
ghost use Rattle.keeper_clients.specs.Joiners.{AreFree as JoinersAreFree, JoinsAreFree};
ghost use Rattle.keeper_clients.specs.Named.{AreFree as NamedJoinersAreFree, CallsAreFree};

use client_callbacks::{Cancels, Dies, Saves};
use named_joiner::{NamedDies, NamedSaves};

/// Does nothing: its contract is a law of keepers. What a client with named callbacks does about a piece,
/// and in a whole run, is what a free client does, as long as each callback answers, and lawfully. Where
/// a callback wants for memory it stops without a word, as a free client doesn't.
pub fn named_joiners_are_free()
    ensures { NamedJoinersAreFree }
{}

/// Does nothing: its contract is a law of `NamedJoiner::hear`'s clause `hears`. The bytes that a call gives
/// are those of a free client to which the same piece comes, where the callbacks answer lawfully alone.
pub fn named_calls_are_free<S: NamedSaves, D: NamedDies>()
    ensures { CallsAreFree S.answers D.gives }
{}

/// Does nothing: its contract is a law of keepers. What a client with callbacks does about a piece, and in
/// a whole run, is what a free client does, as long as each answer to a save is lawful.
pub fn joiners_are_free()
    ensures { JoinersAreFree }
{}

/// Does nothing: its contract is a law of `Joiner::run`'s clause `joins`. What a run sends that nothing
/// cuts short is what a free client says of the pieces that the run receives, where the callbacks answer
/// lawfully alone.
pub fn joins_are_free<S: Saves, D: Dies, C: Cancels>()
    ensures { JoinsAreFree S.answers D.gives C.hears }
{}

/// Does nothing: its contract is a law of keepers. What an agent does about a piece, and as it is told
/// something, is what a free client does.
pub fn agents_are_free()
    ensures { AgentsAreFree }
{}

/// Does nothing: its contract is a law of keepers. So it is of all that comes to an agent, pieces and what
/// it is told, in any order.
pub fn lives_of_agents_are_free()
    ensures { LivesAreFree }
{}
