ghost use Rattle.std.specs.Prelude.{◌≡◌, [], ◌∷◌, true, IfOk};
ghost use Rattle.checkpoint_slots.specs.Layout.{store_size};
ghost use Rattle.sm_world.specs.declared.events.Event.TheVariants.{Joined, Piece, Gone, Operator, Tick};
ghost use Rattle.sm_world.specs.Outside.{Added};
ghost use Rattle.session_engine.specs.Acts.{has_finish};
ghost use Rattle.session_engine.specs.Causes.{HearsNone};
ghost use Rattle.session_engine.specs.Machine.{Machine, acts_of, step};
ghost use Rattle.session_engine.specs.Saved.{Performs};
ghost use Rattle.session_engine.specs.Shown.{Shows, Carried, IsShown, all_cut};
ghost use Rattle.session_engine.specs.Turns.{is_end, either, stored};
ghost use Rattle.session_engine.specs.declared.acts.Act.TheVariants.{Finish};

use crate::act_list::ActList;
use crate::acts::Act;
use crate::engine::Engine;
use crate::fault::Halt;
use crate::shell::Shell;
use crate::store::Store;
use owned_lists::{Duplicate, NoMemory};
use sm_world::{Conn, Console, Disk, Event, Links, Order, Spawner};
use std::alloc::Global;

/// Whether the run goes on after some acts.
#[derive(Clone, Copy, Debug, PartialEq, Eq)]
pub enum Turn {
    GoesOn,
    Ended,
}

impl Turn {
    /// The run ends where one of both ends it.
    fn and(self, other: Turn) -> Turn
        ensures { is_end result ≡ either (is_end self) (is_end other) }
    {
        match self {
            Turn::GoesOn => other,
            Turn::Ended => Turn::Ended,
        }
    }
}

/// Whether the run goes on after these acts.
fn turn_of(acts: &ActList) -> Turn
    ensures { is_end result ≡ has_finish acts.now }
{
    if acts.end() {
        Turn::Ended
    } else {
        Turn::GoesOn
    }
}

/// Does acts, and says whether one of them ends the run.
fn carry_out<W: Disk + Links + Spawner + Console>(
    world: &mut W,
    shell: &mut Shell,
    store: Store,
    acts: ActList,
) -> Result<(Store, Turn), Halt>
    requires size { (W.outside world.old).size ≡ store_size }
    ensures done { Added (W.outside world.old).told (W.outside world.new).told
        (Performs store acts (stored result)) }
    ensures turn { IfOk result (λ done. is_end done.1 ≡ has_finish acts) }
    ensures alone { HearsNone (W.outside world.old) (W.outside world.new) result }
{
    if acts.is_empty() {
        return Ok((store, Turn::GoesOn));
    }
    let turn = turn_of(&acts);
    match shell.perform(world, store, acts) {
        Ok(store) => Ok((store, turn)),
        Err(halt) => Err(halt),
    }
}

/// Does what the end of all events brings: the run ends.
fn take_last<W: Disk + Links + Spawner + Console>(
    world: &mut W,
    shell: &mut Shell,
    store: Store,
) -> Result<(Store, Turn), Halt>
    requires size { (W.outside world.old).size ≡ store_size }
    ensures done { Added (W.outside world.old).told (W.outside world.new).told
        (Performs store (Finish ∷ []) (stored result)) }
    ensures turn { IfOk result (λ done. is_end done.1 ≡ true) }
    ensures alone { HearsNone (W.outside world.old) (W.outside world.new) result }
{
    match shell.do_act(world, store, Act::Finish) {
        Ok(store) => Ok((store, Turn::Ended)),
        Err(halt) => Err(halt),
    }
}

/// Does what the parts of the stream bring that a piece completes, one by one.
fn take_piece<W: Disk + Links + Spawner + Console>(
    alloc: Global,
    world: &mut W,
    engine: &mut Engine,
    shell: &mut Shell,
    store: Store,
    conn: Conn,
    bytes: &[u8],
) -> Result<(Store, Turn), Halt>
    requires size { (W.outside world.old).size ≡ store_size }
    requires shown { IsShown all_cut engine.old }
    ensures carried { (m : Machine) → Shows all_cut engine.old m →
        Carried (W.outside world.old).told (W.outside world.new).told store engine.new
        (step m (Piece conn bytes.now)) (stored result) }
    ensures turn { (m : Machine) → Shows all_cut engine.old m →
        IfOk result (λ done. is_end done.1 ≡ has_finish (acts_of (step m (Piece conn bytes.now)))) }
    ensures alone { HearsNone (W.outside world.old) (W.outside world.new) result }
{
    let mut left = bytes;
    let mut store = store;
    let mut turn = Turn::GoesOn;
    while !left.is_empty() {
        match engine.cut(alloc, conn, left) {
            Ok(None) => return Ok((store, turn)),
            Ok(Some(count)) => {
                left = &left[count..];
                match carry_out(world, shell, store, engine.take_acts()) {
                    Ok((next, last)) => {
                        store = next;
                        turn = turn.and(last);
                    }
                    Err(halt) => return Err(halt),
                }
            }
            Err(NoMemory) => return Err(Halt::NoMemory),
        }
    }
    Ok((store, turn))
}

/// Does what a new connection brings.
fn take_join<W: Disk + Links + Spawner + Console>(
    alloc: Global,
    world: &mut W,
    engine: &mut Engine,
    shell: &mut Shell,
    store: Store,
    conn: Conn,
) -> Result<(Store, Turn), Halt>
    requires size { (W.outside world.old).size ≡ store_size }
    requires shown { IsShown all_cut engine.old }
    ensures carried { (m : Machine) → Shows all_cut engine.old m →
        Carried (W.outside world.old).told (W.outside world.new).told store engine.new
        (step m (Joined conn)) (stored result) }
    ensures turn { (m : Machine) → Shows all_cut engine.old m →
        IfOk result (λ done. is_end done.1 ≡ has_finish (acts_of (step m (Joined conn)))) }
    ensures alone { HearsNone (W.outside world.old) (W.outside world.new) result }
{
    match engine.join(alloc, conn) {
        Ok(()) => carry_out(world, shell, store, engine.take_acts()),
        Err(NoMemory) => Err(Halt::NoMemory),
    }
}

/// Does what the end of a connection brings.
fn take_end<W: Disk + Links + Spawner + Console>(
    world: &mut W,
    engine: &mut Engine,
    shell: &mut Shell,
    store: Store,
    conn: Conn,
) -> Result<(Store, Turn), Halt>
    requires size { (W.outside world.old).size ≡ store_size }
    requires shown { IsShown all_cut engine.old }
    ensures carried { (m : Machine) → Shows all_cut engine.old m →
        Carried (W.outside world.old).told (W.outside world.new).told store engine.new
        (step m (Gone conn)) (stored result) }
    ensures turn { (m : Machine) → Shows all_cut engine.old m →
        IfOk result (λ done. is_end done.1 ≡ has_finish (acts_of (step m (Gone conn)))) }
    ensures alone { HearsNone (W.outside world.old) (W.outside world.new) result }
{
    match engine.leave(conn) {
        Ok(()) => carry_out(world, shell, store, engine.take_acts()),
        Err(NoMemory) => Err(Halt::NoMemory),
    }
}

fn hear_order<W: Disk + Links + Spawner + Console>(
    world: &mut W,
    engine: &mut Engine,
    shell: &mut Shell,
    store: Store,
    order: Order,
) -> Result<(Store, Turn), Halt>
    requires size { (W.outside world.old).size ≡ store_size }
    requires shown { IsShown all_cut engine.old }
    ensures carried { (m : Machine) → Shows all_cut engine.old m →
        Carried (W.outside world.old).told (W.outside world.new).told store engine.new
        (step m (Operator order)) (stored result) }
    ensures turn { (m : Machine) → Shows all_cut engine.old m →
        IfOk result (λ done. is_end done.1 ≡ has_finish (acts_of (step m (Operator order)))) }
    ensures alone { HearsNone (W.outside world.old) (W.outside world.new) result }
{
    match engine.order(order) {
        Ok(()) => carry_out(world, shell, store, engine.take_acts()),
        Err(NoMemory) => Err(Halt::NoMemory),
    }
}

/// Does what an order brings.
fn take_order<W: Disk + Links + Spawner + Console>(
    world: &mut W,
    engine: &mut Engine,
    shell: &mut Shell,
    store: Store,
    order: &Order,
) -> Result<(Store, Turn), Halt>
    requires size { (W.outside world.old).size ≡ store_size }
    requires shown { IsShown all_cut engine.old }
    ensures carried { (m : Machine) → Shows all_cut engine.old m →
        Carried (W.outside world.old).told (W.outside world.new).told store engine.new
        (step m (Operator order.now)) (stored result) }
    ensures turn { (m : Machine) → Shows all_cut engine.old m →
        IfOk result (λ done. is_end done.1 ≡ has_finish (acts_of (step m (Operator order.now)))) }
    ensures alone { HearsNone (W.outside world.old) (W.outside world.new) result }
{
    match order.copy() {
        Ok(order) => hear_order(world, engine, shell, store, order),
        Err(NoMemory) => Err(Halt::NoMemory),
    }
}

/// Does what the passing of so many milliseconds brings.
fn take_tick<W: Disk + Links + Spawner + Console>(
    world: &mut W,
    engine: &mut Engine,
    shell: &mut Shell,
    store: Store,
    milliseconds: u64,
) -> Result<(Store, Turn), Halt>
    requires size { (W.outside world.old).size ≡ store_size }
    requires shown { IsShown all_cut engine.old }
    ensures carried { (m : Machine) → Shows all_cut engine.old m →
        Carried (W.outside world.old).told (W.outside world.new).told store engine.new
        (step m (Tick milliseconds)) (stored result) }
    ensures turn { (m : Machine) → Shows all_cut engine.old m →
        IfOk result (λ done. is_end done.1 ≡ has_finish (acts_of (step m (Tick milliseconds)))) }
    ensures alone { HearsNone (W.outside world.old) (W.outside world.new) result }
{
    match engine.tick(milliseconds) {
        Ok(()) => carry_out(world, shell, store, engine.take_acts()),
        Err(NoMemory) => Err(Halt::NoMemory),
    }
}

/// Does all that an event brings.
pub fn take_event<W: Disk + Links + Spawner + Console>(
    alloc: Global,
    world: &mut W,
    engine: &mut Engine,
    shell: &mut Shell,
    store: Store,
    event: &Event,
) -> Result<(Store, Turn), Halt>
    requires size { (W.outside world.old).size ≡ store_size }
    requires shown { IsShown all_cut engine.old }
    ensures carried { (m : Machine) → Shows all_cut engine.old m →
        Carried (W.outside world.old).told (W.outside world.new).told store engine.new
        (step m event.now) (stored result) }
    ensures turn { (m : Machine) → Shows all_cut engine.old m →
        IfOk result (λ done. is_end done.1 ≡ has_finish (acts_of (step m event.now))) }
    ensures alone { HearsNone (W.outside world.old) (W.outside world.new) result }
{
    match event {
        Event::Joined(conn) => take_join(alloc, world, engine, shell, store, *conn),
        Event::Piece(conn, bytes) => {
            take_piece(alloc, world, engine, shell, store, *conn, bytes.as_slice())
        }
        Event::Gone(conn) => take_end(world, engine, shell, store, *conn),
        Event::Operator(order) => take_order(world, engine, shell, store, order),
        Event::Tick(milliseconds) => take_tick(world, engine, shell, store, *milliseconds),
        Event::End => take_last(world, shell, store),
    }
}
