ghost use Rattle.std.specs.Prelude.{ℕ, List, [], IfOk};
ghost use Rattle.std.specs.List.{AllByRecursion};
ghost use Rattle.trace_replay.specs.Parts.{IsHeaded};
ghost use Rattle.trace_replay.specs.Shown.{silence, replaced};
ghost use Rattle.trace_replay.specs.Watches.{BringsLine, BringsPiece, Reads, Shows};
ghost use Rattle.trace_replay.specs.declared.lines.TraceLine.{TraceLine};

use crate::flows::{Brought, Flow, Progress};
use crate::lines::TraceLine;
use owned_lists::NoMemory;
use sm_world::{Conn, Event};
use std::alloc::Global;
use std::collections::BTreeMap;

/// How far the streams of one direction were read, of each connection on which bytes came.
#[derive(Debug, Drop)]
struct Table {
    rows: BTreeMap<Conn, Progress>,
}

impl Table {
    fn new(alloc: Global) -> Table
        ensures { Reads (λ q. []) result }
    {
        Table {
            rows: BTreeMap::new(alloc),
        }
    }

    /// Begins a stream anew.
    fn reset(&mut self, conn: Conn)
        ensures { (streams : ℕ → List ℕ) → Reads streams self.old →
            Reads (replaced streams conn []) self.new }
    {
        self.rows.remove(&conn);
    }

    /// Goes on with a piece of a stream.
    fn take(&mut self, alloc: Global, conn: Conn, piece: &[u8]) -> Result<Brought, NoMemory>
        ensures brings { IfOk result (BringsPiece conn piece.now self.old self.new) }
        ensures headed { IfOk result (λ brought. AllByRecursion IsHeaded brought.frames) }
    {
        let row = match self.rows.remove(&conn) {
            Some(row) => row,
            None => Progress::Going(Flow::new(alloc)),
        };
        let (row, brought) = row.take(alloc, piece)?;
        self.rows.insert(conn, row)?;
        Ok(brought)
    }
}

/// How far the streams of both directions were read, of each connection.
#[derive(Debug, Drop)]
pub struct Watch {
    came: Table,
    went: Table,
}

impl Watch {
    /// Before the first line.
    pub fn new(alloc: Global) -> Watch
        ensures { Shows silence result }
    {
        Watch {
            came: Table::new(alloc),
            went: Table::new(alloc),
        }
    }

    /// Goes on with an event.
    fn take_event(&mut self, alloc: Global, event: &Event) -> Result<Brought, NoMemory>
        ensures brings { IfOk result (BringsLine (TraceLine.Heard event.now) self.old self.new) }
        ensures headed { IfOk result (λ brought. AllByRecursion IsHeaded brought.frames) }
    {
        match event {
            Event::Joined(conn) => {
                self.came.reset(*conn);
                self.went.reset(*conn);
                Ok(Brought::nothing(alloc))
            }
            Event::Piece(conn, bytes) => self.came.take(alloc, *conn, bytes.as_slice()),
            Event::Gone(_) => Ok(Brought::nothing(alloc)),
            Event::Operator(_) => Ok(Brought::nothing(alloc)),
            Event::Tick(_) => Ok(Brought::nothing(alloc)),
            Event::End => Ok(Brought::nothing(alloc)),
        }
    }

    /// Goes on with what a line says: the parts that it brings.
    pub fn take(&mut self, alloc: Global, said: &TraceLine) -> Result<Brought, NoMemory>
        ensures brings { IfOk result (BringsLine said.now self.old self.new) }
        ensures headed { IfOk result (λ brought. AllByRecursion IsHeaded brought.frames) }
    {
        match said {
            TraceLine::Heard(event) => self.take_event(alloc, event),
            TraceLine::Sent(conn, bytes) => self.went.take(alloc, *conn, bytes.as_slice()),
            TraceLine::End => Ok(Brought::nothing(alloc)),
            TraceLine::Shut(_) => Ok(Brought::nothing(alloc)),
            TraceLine::Started(..) => Ok(Brought::nothing(alloc)),
            TraceLine::Printed(_) => Ok(Brought::nothing(alloc)),
        }
    }
}
