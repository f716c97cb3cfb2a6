ghost use Rattle.std.specs.Prelude.{◌≡◌, ◌∷◌, [], min, max, position, ◌==◌};
ghost use Rattle.sm_world.specs.declared.effects.Effect.TheVariants.{Sent};
ghost use Rattle.byte_relay.specs.Relaying.{partner as partner_of, greeting as greeting_in};
ghost use Rattle.byte_relay.specs.Serving.{Does};
ghost use Rattle.byte_relay.specs.declared.row.Row.{Row as AnyRow};

use crate::fault::RelayFault;
use crate::passing::{Pair, pass, send, shut};
use crate::respeller::Respeller;
use crate::row::Row;
use ice_values::{Endian, Enumerated};
use owned_lists::NoMemory;
use sm_world::{Conn, Event, Links};
use std::alloc::Global;

/// How many connections may be live.
const LIVE_LIMIT: usize = 64;

/// The other number of a pair. The largest number has one that no connection has.
fn partner(conn: Conn) -> u64
    ensures { result ≡ partner_of conn }
{
    if conn % 2 == 1 {
        u64::from(conn) + 1
    } else {
        u64::from(conn).saturating_sub(1)
    }
}

/// Where the connection of a number stands.
fn place_of(rows: &[Row], number: u64) -> Option<usize>
    ensures { result ≡ position (λ (row : AnyRow). row.conn == number) rows.now }
{
    rows.iter().position(|row| u64::from(row.conn()) == number)
}

/// The ByteOrder that states an order.
fn greeting(order: Endian) -> [u8; 8]
    ensures { result ≡ greeting_in order }
{
    [0, 1, order.number(), 0, 0, 0, 0, 0]
}

/// Tells both of a pair the order in which all numbers are written.
fn greet<W: Links>(world: &mut W, order: Endian, low: Conn, high: Conn) -> Result<(), RelayFault>
    ensures { Does (W.outside world.old) (W.outside world.new)
        (Sent low (greeting_in order) ∷ Sent high (greeting_in order) ∷ []) result }
{
    let bytes = greeting(order);
    match send(world, low, &bytes) {
        Ok(()) => send(world, high, &bytes),
        Err(fault) => Err(fault),
    }
}

/// The live connections of a relay.
#[derive(Debug, Drop)]
pub struct Relay {
    alloc: Global,
    respeller: Respeller,
    /// In the order in which they joined.
    rows: Vec<Row>,
}

impl Relay {
    ghost use Rattle.std.specs.Prelude.{◌≡◌, ◌∷◌, [], ◌++◌, List, is_some, IfSome, OnOk, true};
    ghost use Rattle.sm_world.specs.declared.effects.Effect.TheVariants.{Shut};
    ghost use Rattle.sm_world.specs.declared.events.Event.TheVariants.{Joined, Piece, Gone};
    ghost use Rattle.byte_relay.specs.Relaying.{Line, is_live as is_live_in, is_refused as is_refused_in, shuts};
    ghost use Rattle.byte_relay.specs.Rows.{ShowAll, parted_rows};
    ghost use Rattle.byte_relay.specs.Steps.{StepsTo};

    /// A relay to which nothing has come yet. This takes no memory.
    pub fn new(alloc: Global, to: Endian) -> Relay
        ensures order { result.respeller.to ≡ to }
        ensures none { result.rows.items ≡ [] }
    {
        Relay {
            alloc,
            respeller: Respeller::new(alloc, to),
            rows: Vec::new(alloc),
        }
    }

    /// The connection of a number, where it is live.
    fn live(&self, number: u64) -> Option<Conn>
        ensures live { (lines : List Line) → ShowAll self.now.rows.items lines →
            is_some result ≡ is_live_in number lines }
        ensures conn { IfSome result (λ conn. conn ≡ number) }
    {
        match place_of(&self.rows, number) {
            Some(place) => Some(self.rows[place].conn()),
            None => None,
        }
    }

    fn is_live(&self, conn: Conn) -> bool
        ensures { (lines : List Line) → ShowAll self.now.rows.items lines →
            result ≡ is_live_in conn lines }
    {
        self.live(u64::from(conn)).is_some()
    }

    /// Makes a connection live.
    fn join(&mut self, conn: Conn) -> Result<(), NoMemory>
        ensures shows { OnOk result ((lines : List Line) → ShowAll self.old.rows.items lines →
            ShowAll self.new.rows.items (lines ++ record { number = conn; stream = [] } ∷ [])) }
        ensures order { self.new.respeller.to ≡ self.old.respeller.to }
    {
        let row = Row::new(self.alloc, conn)?;
        self.rows.push(row)?;
        Ok(())
    }

    /// Takes both connections of a pair out, where they are live.
    fn part(&mut self, conn: Conn)
        ensures rows { self.new.rows.items ≡ parted_rows conn self.old.rows.items }
        ensures order { self.new.respeller.to ≡ self.old.respeller.to }
    {
        let other = partner(conn);
        self.rows
            .retain(|row| row.conn() != conn && u64::from(row.conn()) != other);
    }

    /// Whether a new connection is refused.
    fn is_refused(&self, conn: Conn) -> bool
        ensures { (lines : List Line) → ShowAll self.now.rows.items lines →
            result ≡ is_refused_in conn lines }
    {
        conn == 0 || self.rows.len() >= LIVE_LIMIT
    }

    /// Does what a new connection brings.
    fn take_join<W: Links>(&mut self, world: &mut W, conn: Conn) -> Result<(), RelayFault>
        ensures steps { StepsTo self.old.respeller.to
            (Joined conn) self.old.rows.items self.new.rows.items (W.outside world.old)
            (W.outside world.new) result }
        ensures order { self.new.respeller.to ≡ self.old.respeller.to }
    {
        if self.is_live(conn) {
            return Ok(());
        }
        if self.is_refused(conn) {
            return shut(world, conn);
        }
        let other = self.live(partner(conn));
        match self.join(conn) {
            Ok(()) => {}
            Err(NoMemory) => return Err(RelayFault::NoMemory),
        }
        match other {
            Some(other) => greet(
                world,
                self.respeller.order(),
                conn.min(other),
                conn.max(other),
            ),
            None => Ok(()),
        }
    }

    /// Shuts the connection that broke its pair, and then the other.
    fn break_pair<W: Links>(
        &mut self,
        world: &mut W,
        conn: Conn,
        other: Conn,
    ) -> Result<(), RelayFault>
        requires { other ≡ partner_of conn }
        ensures done { Does (W.outside world.old) (W.outside world.new) (shuts conn) result }
        ensures rows { self.new.rows.items ≡ parted_rows conn self.old.rows.items }
        ensures order { self.new.respeller.to ≡ self.old.respeller.to }
    {
        self.part(conn);
        match shut(world, conn) {
            Ok(()) => shut(world, other),
            Err(fault) => Err(fault),
        }
    }

    /// Does what a piece brings.
    fn take_piece<W: Links>(
        &mut self,
        world: &mut W,
        conn: Conn,
        piece: &[u8],
    ) -> Result<(), RelayFault>
        ensures steps { StepsTo self.old.respeller.to
            (Piece conn piece.now) self.old.rows.items self.new.rows.items (W.outside world.old)
            (W.outside world.new) result }
        ensures order { self.new.respeller.to ≡ self.old.respeller.to }
    {
        let Some(place) = place_of(&self.rows, u64::from(conn)) else {
            return Ok(());
        };
        let Some(other) = self.live(partner(conn)) else {
            self.part(conn);
            return shut(world, conn);
        };
        match pass(
            world,
            &mut self.respeller,
            &mut self.rows[place],
            other,
            piece,
        ) {
            Ok(Pair::Open) => Ok(()),
            Ok(Pair::Broken) => self.break_pair(world, conn, other),
            Err(fault) => Err(fault),
        }
    }

    /// Does what the end of a connection brings.
    fn take_end<W: Links>(&mut self, world: &mut W, conn: Conn) -> Result<(), RelayFault>
        ensures steps { StepsTo self.old.respeller.to
            (Gone conn) self.old.rows.items self.new.rows.items (W.outside world.old)
            (W.outside world.new) result }
        ensures order { self.new.respeller.to ≡ self.old.respeller.to }
    {
        if !self.is_live(conn) {
            return Ok(());
        }
        let other = self.live(partner(conn));
        self.part(conn);
        match other {
            Some(other) => shut(world, other),
            None => Ok(()),
        }
    }

    /// Does all that an event brings.
    pub fn take<W: Links>(&mut self, world: &mut W, event: &Event) -> Result<(), RelayFault>
        ensures steps { StepsTo self.old.respeller.to event.now self.old.rows.items
            self.new.rows.items (W.outside world.old) (W.outside world.new) result }
        ensures order { self.new.respeller.to ≡ self.old.respeller.to }
    {
        match event {
            Event::Joined(conn) => self.take_join(world, *conn),
            Event::Piece(conn, bytes) => self.take_piece(world, *conn, bytes.as_slice()),
            Event::Gone(conn) => self.take_end(world, *conn),
            Event::Operator(_) => Ok(()),
            Event::Tick(_) => Ok(()),
            Event::End => Ok(()),
        }
    }
}
