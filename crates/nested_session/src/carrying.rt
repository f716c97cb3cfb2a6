ghost use Rattle.std.specs.Prelude.{◌≡◌, ◌≢◌, ◌∷◌, ◌++◌, [], List, Option as AnyOption, IfOk};
ghost use Rattle.std.specs.List.{list_any};
ghost use Rattle.checkpoint_records.specs.declared.records.Book.{Book};
ghost use Rattle.checkpoint_slots.specs.Layout.{store_size};
ghost use Rattle.checkpoint_slots.specs.declared.turn.Current.{Current};
ghost use Rattle.sm_world.specs.Outside.{adds};
ghost use Rattle.sm_world.specs.declared.effects.Effect.{Effect};
ghost use Rattle.sm_world.specs.declared.events.Event.{Event as AnyEvent};
ghost use Rattle.sm_world.specs.declared.effects.Effect.TheVariants.{Heard};
ghost use Rattle.outer_agent.specs.declared.acts.AgentAct.TheVariants.{Send as SendsBytes};
ghost use Rattle.session_engine.specs.Machine.{Item};
ghost use Rattle.session_engine.specs.Shown.{IsShown, all_cut};
ghost use Rattle.nested_session.specs.Nesting.{Nested, all_carried, carried, is_void as makes_void, outer_heard, piece_for, taken};
ghost use Rattle.nested_session.specs.Nests.{success as success_bytes};
ghost use Rattle.nested_session.specs.Standing.{GoesOn, Makes, Quiet, SayNoSuccess, ShowsOn};
ghost use Rattle.nested_session.specs.Woven.{Woven, is_outer as comes_outside};

use crate::nest::{Answered, Nest};
use crate::saying::{send_outer, shut_outer};
use outer_agent::AgentAct;
use session_engine::{Config, ServeFault};
use sm_world::{Console, Disk, Event, Links, Order, Spawner};
use std::alloc::Global;

/// Whether the end of a save isn't to be told, where this act stands behind it.
fn is_void(act: &AgentAct) -> bool
    ensures { result ≡ makes_void act.now }
{
    match act {
        AgentAct::Send(_) => false,
        AgentAct::Checkpoint => false,
        AgentAct::Forget => true,
        AgentAct::Shutdown => false,
        AgentAct::Drop => true,
    }
}

/// Whether one of these acts has it so.
fn any_void(acts: &[AgentAct]) -> bool
    ensures { result ≡ list_any makes_void acts.now }
{
    acts.iter().any(is_void)
}

/// Whether an event is of the outer connection.
pub fn is_outer(event: &Event) -> bool
    ensures { result ≡ comes_outside event.now }
{
    match event {
        Event::Joined(conn) => *conn == 0,
        Event::Piece(conn, _) => *conn == 0,
        Event::Gone(conn) => *conn == 0,
        Event::Operator(_) => false,
        Event::Tick(_) => false,
        Event::End => false,
    }
}

impl Nest {
    /// Has the session saved. The end is to be told, unless an act behind this one makes it void.
    fn save<W: Disk + Links + Spawner + Console>(
        self,
        alloc: Global,
        world: &mut W,
        later: &[AgentAct],
    ) -> Result<Answered, ServeFault>
        requires size { (W.outside world.old).size ≡ store_size }
        requires shown { IsShown all_cut self.session.engine }
        ensures makes { (config : Config) (opening : Book) (current : AnyOption Current)
            (base : AnyOption (List Effect)) (events : List AnyEvent) (n : Nested)
            (script : List (Woven Item)) (all : List (Woven Effect)) →
            GoesOn config opening current base events (W.outside world.old).told self n script all →
            Makes config opening current base events (W.outside world.new).told script
            (carried AgentAct.Checkpoint later.now n) result }
        ensures shown { IfOk result ShowsOn }
        ensures alone { Quiet (W.outside world.old) (W.outside world.new) result }
    {
        let Nest { session, agent, .. } = self;
        let awaited = if any_void(later) {
            None
        } else {
            Some(session.marks().begun)
        };
        let nest = Nest {
            session,
            agent,
            awaited,
        };
        nest.feed(alloc, world, Event::Operator(Order::Checkpoint))
    }

    /// Has the session shut down; the agent does nothing more.
    fn shut_down<W: Disk + Links + Spawner + Console>(
        self,
        alloc: Global,
        world: &mut W,
    ) -> Result<Answered, ServeFault>
        requires size { (W.outside world.old).size ≡ store_size }
        requires shown { IsShown all_cut self.session.engine }
        ensures makes { (config : Config) (opening : Book) (current : AnyOption Current)
            (base : AnyOption (List Effect)) (events : List AnyEvent) (n : Nested)
            (script : List (Woven Item)) (all : List (Woven Effect)) →
            GoesOn config opening current base events (W.outside world.old).told self n script all →
            Makes config opening current base events (W.outside world.new).told script
            (carried AgentAct.Shutdown [] n) result }
        ensures shown { IfOk result ShowsOn }
        ensures alone { Quiet (W.outside world.old) (W.outside world.new) result }
    {
        let Nest {
            session,
            agent,
            awaited,
        } = self;
        drop(agent);
        let nest = Nest {
            session,
            agent: None,
            awaited,
        };
        nest.feed(alloc, world, Event::Operator(Order::Shutdown))
    }

    /// It waits for no end of a save any more.
    fn forget(self) -> Nest
        ensures { result ≡ record self { awaited = AnyOption.None } }
    {
        let Nest { session, agent, .. } = self;
        Nest {
            session,
            agent,
            awaited: None,
        }
    }

    /// The agent does nothing more.
    fn part(self) -> Nest
        ensures { result ≡ record self { agent = AnyOption.None } }
    {
        let Nest {
            session,
            agent,
            awaited,
        } = self;
        drop(agent);
        Nest {
            session,
            agent: None,
            awaited,
        }
    }

    /// Carries out an act of the agent, with those that stand behind it.
    fn carry<W: Disk + Links + Spawner + Console>(
        self,
        alloc: Global,
        world: &mut W,
        act: &AgentAct,
        later: &[AgentAct],
    ) -> Result<Answered, ServeFault>
        requires size { (W.outside world.old).size ≡ store_size }
        requires shown { IsShown all_cut self.session.engine }
        ensures makes { (config : Config) (opening : Book) (current : AnyOption Current)
            (base : AnyOption (List Effect)) (events : List AnyEvent) (n : Nested)
            (script : List (Woven Item)) (all : List (Woven Effect)) →
            act.now ≢ SendsBytes success_bytes → GoesOn config opening current base events
            (W.outside world.old).told self n script all →
            Makes config opening current base events (W.outside world.new).told script
            (carried act.now later.now n) result }
        ensures shown { IfOk result ShowsOn }
        ensures alone { Quiet (W.outside world.old) (W.outside world.new) result }
    {
        match act {
            AgentAct::Send(bytes) => match send_outer(world, bytes.as_slice()) {
                Ok(()) => Ok(Answered::Goes(self)),
                Err(fault) => Err(fault),
            },
            AgentAct::Checkpoint => self.save(alloc, world, later),
            AgentAct::Forget => Ok(Answered::Goes(self.forget())),
            AgentAct::Shutdown => self.shut_down(alloc, world),
            AgentAct::Drop => match shut_outer(world) {
                Ok(()) => Ok(Answered::Goes(self.part())),
                Err(fault) => Err(fault),
            },
        }
    }

    /// Carries out acts of the agent, one after another, up to the session's end.
    fn carry_all<W: Disk + Links + Spawner + Console>(
        self,
        alloc: Global,
        world: &mut W,
        acts: &[AgentAct],
    ) -> Result<Answered, ServeFault>
        requires size { (W.outside world.old).size ≡ store_size }
        requires shown { IsShown all_cut self.session.engine }
        ensures makes { (config : Config) (opening : Book) (current : AnyOption Current)
            (base : AnyOption (List Effect)) (events : List AnyEvent) (n : Nested)
            (script : List (Woven Item)) (all : List (Woven Effect)) → SayNoSuccess acts.now →
            GoesOn config opening current base events (W.outside world.old).told self n script all →
            Makes config opening current base events (W.outside world.new).told script
            (all_carried acts.now n) result }
        ensures shown { IfOk result ShowsOn }
        ensures alone { Quiet (W.outside world.old) (W.outside world.new) result }
    {
        let mut nest = self;
        let mut left = acts;
        while let Some((act, later)) = left.split_first() {
            match nest.carry(alloc, world, act, later) {
                Ok(Answered::Goes(next)) => nest = next,
                Ok(Answered::Finished) => return Ok(Answered::Finished),
                Err(fault) => return Err(fault),
            }
            left = later;
        }
        Ok(Answered::Goes(nest))
    }

    /// Does what a piece of the outer manager's stream brings.
    fn hear_piece<W: Disk + Links + Spawner + Console>(
        self,
        alloc: Global,
        world: &mut W,
        bytes: &[u8],
    ) -> Result<Answered, ServeFault>
        requires size { (W.outside world.old).size ≡ store_size }
        requires shown { IsShown all_cut self.session.engine }
        ensures makes { (config : Config) (opening : Book) (current : AnyOption Current)
            (base : AnyOption (List Effect)) (events : List AnyEvent) (n : Nested)
            (script : List (Woven Item)) (all : List (Woven Effect)) →
            GoesOn config opening current base events (W.outside world.old).told self n script all →
            Makes config opening current base events (W.outside world.new).told script
            (piece_for bytes.now n n.agent) result }
        ensures shown { IfOk result ShowsOn }
        ensures alone { Quiet (W.outside world.old) (W.outside world.new) result }
    {
        let Nest {
            session,
            agent,
            awaited,
        } = self;
        match agent {
            None => Ok(Answered::Goes(Nest {
                session,
                agent: None,
                awaited,
            })),
            Some(mut agent) => match agent.hear(bytes) {
                Ok(acts) => {
                    let nest = Nest {
                        session,
                        agent: Some(agent),
                        awaited,
                    };
                    nest.carry_all(alloc, world, acts.as_slice())
                }
                Err(_) => Err(ServeFault::NoMemory),
            },
        }
    }

    /// Does what an event of the outer connection brings.
    fn hear_outer<W: Disk + Links + Spawner + Console>(
        self,
        alloc: Global,
        world: &mut W,
        event: &Event,
    ) -> Result<Answered, ServeFault>
        requires size { (W.outside world.old).size ≡ store_size }
        requires shown { IsShown all_cut self.session.engine }
        ensures makes { (config : Config) (opening : Book) (current : AnyOption Current)
            (base : AnyOption (List Effect)) (events : List AnyEvent) (n : Nested)
            (script : List (Woven Item)) (all : List (Woven Effect)) →
            GoesOn config opening current base events (W.outside world.old).told self n script all →
            Makes config opening current base events (W.outside world.new).told script
            (outer_heard event.now n) result }
        ensures shown { IfOk result ShowsOn }
        ensures alone { Quiet (W.outside world.old) (W.outside world.new) result }
    {
        match event {
            Event::Joined(_) => Ok(Answered::Goes(self)),
            Event::Piece(_, bytes) => self.hear_piece(alloc, world, bytes.as_slice()),
            Event::Gone(_) => Ok(Answered::Goes(self.part())),
            Event::Operator(_) => Ok(Answered::Goes(self)),
            Event::Tick(_) => Ok(Answered::Goes(self)),
            Event::End => Ok(Answered::Goes(self)),
        }
    }

    /// Answers an event that was heard.
    pub fn take<W: Disk + Links + Spawner + Console>(
        self,
        alloc: Global,
        world: &mut W,
        event: Event,
    ) -> Result<Answered, ServeFault>
        requires size { (W.outside world.old).size ≡ store_size }
        requires shown { IsShown all_cut self.session.engine }
        ensures makes { (config : Config) (opening : Book) (current : AnyOption Current)
            (base before : AnyOption (List Effect)) (earlier events : List AnyEvent) (n : Nested)
            (script : List (Woven Item)) (all : List (Woven Effect)) →
            (W.outside world.old).told ≡ adds before (Heard event ∷ []) →
            events ≡ earlier ++ event ∷ [] → GoesOn config opening current base earlier before self
            n script all → Makes config opening current base events
            (W.outside world.new).told script (taken event n) result }
        ensures shown { IfOk result ShowsOn }
        ensures alone { Quiet (W.outside world.old) (W.outside world.new) result }
    {
        if is_outer(&event) {
            return self.hear_outer(alloc, world, &event);
        }
        self.feed(alloc, world, event)
    }
}
