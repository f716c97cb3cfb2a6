ghost use Rattle.std.specs.Prelude.{◌≡◌, ◌≤◌, false, IsSome};
ghost use Rattle.ice_framing.specs.Frames.{IsPartial, units, unit_limit};

use crate::respeller::{Respeller, Taken};
use ice_framing::Splitter;
use owned_lists::NoMemory;
use sm_world::Conn;
use std::alloc::Global;

/// What is kept of a live connection.
#[derive(Debug, Drop)]
pub struct Row {
    conn: Conn,
    /// Whether the first frame of its stream is still to come.
    fresh: bool,
    splitter: Splitter,
    /// Behind the first frame the order of the stream is known.
    ghost ordered: { fresh ≡ false → IsSome splitter.order },
    /// The splitter can be fed.
    ghost partial: { IsPartial splitter },
    ghost within: { units splitter ≤ unit_limit },
}

/// A part of the stream is whole.
#[derive(Clone, Copy, Debug)]
pub struct Cut {
    /// What it is to the other side.
    pub taken: Taken,
    /// How many bytes of the piece completed it.
    pub count: usize,
}

impl Row {
    ghost use Rattle.std.specs.Prelude.{◌≡◌, ◌≤◌, true, length, IfOk, IfSome};
    ghost use Rattle.ice_framing.specs.Frames.{beginning};
    ghost use Rattle.byte_relay.specs.Rows.{Cuts};

    /// A connection that just joined.
    pub fn new(alloc: Global, conn: Conn) -> Result<Row, NoMemory>
        ensures conn { IfOk result (λ row. row.conn ≡ conn) }
        ensures fresh { IfOk result (λ row. row.fresh ≡ true) }
        ensures splitter { IfOk result (λ row. row.splitter ≡ beginning) }
    {
        Ok(Row {
            conn,
            fresh: true,
            splitter: Splitter::new(alloc)?,
        })
    }

    /// Its number.
    pub fn conn(&self) -> Conn
        ensures { result ≡ self.now.conn }
    {
        self.conn
    }

    /// Takes the rest of a piece up to the end of the first part. `None` where it completes none.
    pub fn cut(&mut self, respeller: &mut Respeller, left: &[u8]) -> Result<Option<Cut>, NoMemory>
        ensures cuts { IfOk result (λ cut.
            Cuts respeller.old.to self.old left.now cut respeller.new.bytes self.new) }
        ensures some { IfOk result (λ cut. IfSome cut (λ part. 1 ≤ part.count)) }
        ensures within { IfOk result (λ cut. IfSome cut (λ part. part.count ≤ length left.now)) }
        ensures conn { self.new.conn ≡ self.old.conn }
        ensures to { respeller.new.to ≡ respeller.old.to }
    {
        let count = match self.splitter.feed(left) {
            Ok(count) => count,
            Err(_) => {
                self.splitter.forget();
                self.fresh = false;
                return Ok(Some(Cut {
                    taken: Taken::Breaks,
                    count: left.len(),
                }));
            }
        };
        let frame = match self.splitter.next_frame() {
            Some(frame) => frame,
            None => return Ok(None),
        };
        let taken = respeller.take(self.fresh, frame.endian, frame.bytes);
        self.splitter.take_frame();
        self.fresh = false;
        let taken = taken?;
        Ok(Some(Cut { taken, count }))
    }
}
