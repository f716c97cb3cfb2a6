ghost use Rattle.std.specs.Prelude.{◌≡◌, [], ◌∷◌, ◌++◌, List, Option as AnyOption, IfOk};
ghost use Rattle.checkpoint_records.specs.declared.records.Book.{Book};
ghost use Rattle.checkpoint_slots.specs.Layout.{store_size};
ghost use Rattle.checkpoint_slots.specs.declared.turn.Current.{Current};
ghost use Rattle.sm_world.specs.declared.effects.Effect.{Effect};
ghost use Rattle.sm_world.specs.declared.events.Event.{Event as AnyEvent};
ghost use Rattle.session_engine.specs.Machine.{Item};
ghost use Rattle.session_engine.specs.Shown.{IsShown, all_cut};
ghost use Rattle.session_model.specs.Readings as of;
ghost use Rattle.nested_session.specs.Nesting.{Nested, ended_said, outcome as outcome_of, stepped, tells};
ghost use Rattle.nested_session.specs.Standing.{Brings, Ends, GoesBy, GoesOn, Makes, Quiet, Ready, ShowsOn, Waits};
ghost use Rattle.nested_session.specs.Woven.{Woven, shown_of};

use crate::saying::{say_close, say_end, say_outcome};
use outer_agent::Agent;
use session_engine::{Config, ServeFault, Session, Stepped};
use session_model::Marks;
use sm_world::{Console, Disk, Event, Links, Spawner};
use std::alloc::Global;

/// A session with an agent, held between events.
#[derive(Drop)]
pub struct Nest {
    pub session: Session,
    /// The agent, as long as the outer connection stands.
    pub agent: Option<Agent>,
    /// How many rounds had begun as the outer manager asked for a save whose end is to be told to it.
    pub awaited: Option<u64>,
}

/// What an event made of a nest.
#[derive(Drop)]
pub enum Answered {
    /// It goes on.
    Goes(Nest),
    /// The session came to its end.
    Finished,
}

/// How the awaited save ended, or none where nothing ended yet.
fn outcome(awaited: Option<u64>, marks: Marks) -> Option<bool>
    ensures { result ≡ outcome_of awaited marks }
{
    match awaited {
        None => None,
        Some(begun) => {
            if begun < marks.agreed {
                Some(true)
            } else if begun < marks.ended {
                Some(false)
            } else {
                None
            }
        }
    }
}

/// Tells an agent of the end of the awaited save, where it ended, and has it close.
fn finish<W: Links>(
    world: &mut W,
    agent: Option<Agent>,
    ended: Option<bool>,
) -> Result<Answered, ServeFault>
    ensures makes { (config : Config) (opening : Book) (current : AnyOption Current)
        (base : AnyOption (List Effect)) (events : List AnyEvent) (n : Nested)
        (script : List (Woven Item)) (all : List (Woven Effect)) →
        ended ≡ outcome_of n.awaited (of.marks n.machine.session) →
        Ends config opening current base events (W.outside world.old).told agent n script all →
        Makes config opening current base events (W.outside world.new).told script
        (ended_said n) result }
    ensures shown { IfOk result ShowsOn }
    ensures alone { Quiet (W.outside world.old) (W.outside world.new) result }
{
    match say_outcome(world, agent, ended) {
        Ok(agent) => match say_close(world, agent) {
            Ok(last) => {
                drop(last);
                Ok(Answered::Finished)
            }
            Err(fault) => Err(fault),
        },
        Err(fault) => Err(fault),
    }
}

impl Nest {
    /// Tells the agent of the end of the awaited save, where it ended.
    fn tell<W: Links>(self, world: &mut W, marks: Marks) -> Result<Nest, ServeFault>
        requires shown { IsShown all_cut self.session.engine }
        ensures tells { (config : Config) (opening : Book) (current : AnyOption Current)
            (base : AnyOption (List Effect)) (events : List AnyEvent) (n : Nested)
            (script : List (Woven Item)) (all : List (Woven Effect)) →
            marks ≡ of.marks n.machine.session → GoesOn config opening current base events
            (W.outside world.old).told self n script all →
            GoesBy config opening current base events (W.outside world.new).told script
            (tells n) result }
        ensures shown { IfOk result (λ nest. IsShown all_cut nest.session.engine) }
        ensures alone { Quiet (W.outside world.old) (W.outside world.new) result }
    {
        let Nest {
            session,
            agent,
            awaited,
        } = self;
        match outcome(awaited, marks) {
            None => Ok(Nest {
                session,
                agent,
                awaited,
            }),
            Some(success) => match say_end(world, agent, success) {
                Ok(agent) => Ok(Nest {
                    session,
                    agent,
                    awaited: None,
                }),
                Err(fault) => Err(fault),
            },
        }
    }

    /// Has the session answer an event or an order, and tells the agent of the end of a save. At the
    /// session's end the agent closes.
    pub fn feed<W: Disk + Links + Spawner + Console>(
        self,
        alloc: Global,
        world: &mut W,
        event: Event,
    ) -> Result<Answered, ServeFault>
        requires size { (W.outside world.old).size ≡ store_size }
        requires shown { IsShown all_cut self.session.engine }
        ensures makes { (config : Config) (opening : Book) (current : AnyOption Current)
            (base before : AnyOption (List Effect)) (earlier events : List AnyEvent) (n : Nested)
            (script : List (Woven Item)) (all : List (Woven Effect)) (how : Woven Effect) →
            Brings event how before (W.outside world.old).told earlier events →
            Ready config opening current base earlier before self n script all →
            Waits config opening n.awaited (all ++ how ∷ []) →
            Makes config opening current base events (W.outside world.new).told
            (script ++ shown_of how) (stepped event n) result }
        ensures shown { IfOk result ShowsOn }
        ensures alone { Quiet (W.outside world.old) (W.outside world.new) result }
    {
        let Nest {
            session,
            agent,
            awaited,
        } = self;
        match session.step(alloc, world, event) {
            Ok(Stepped::Goes(session)) => {
                let marks = session.marks();
                let nest = Nest {
                    session,
                    agent,
                    awaited,
                };
                match nest.tell(world, marks) {
                    Ok(nest) => Ok(Answered::Goes(nest)),
                    Err(fault) => Err(fault),
                }
            }
            Ok(Stepped::Finished(marks)) => finish(world, agent, outcome(awaited, marks)),
            Err(fault) => Err(fault),
        }
    }
}
