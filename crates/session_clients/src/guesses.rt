ghost use Rattle.std.specs.Prelude.{◌<◌};

use crate::Client;
use sm_world::Conn;

/// For each connection a guess at the place of its row. Connections whose numbers end in the same
/// byte share one, and a place past the 256th isn't held, so a guess can be wrong: who takes one
/// looks at the row first.
#[derive(Drop)]
pub(crate) struct Guesses {
    places: [u8; 256],
}

/// Which guess is that of a connection.
fn slot(conn: Conn) -> usize
    ensures { result < 256 }
{
    (conn % 256) as usize
}

impl Guesses {
    /// Each row is guessed at the front.
    pub(crate) fn new() -> Guesses {
        Guesses { places: [0; 256] }
    }

    /// Where the row of a connection may stand.
    pub(crate) fn place(&self, conn: Conn) -> usize {
        usize::from(self.places[slot(conn)])
    }

    /// The row of a connection stands at this place now.
    pub(crate) fn note(&mut self, conn: Conn, place: usize) {
        self.places[slot(conn)] = (place % 256) as u8;
    }

    /// These are all rows now, in their order.
    pub(crate) fn note_all(&mut self, rows: &[Client]) {
        for (place, row) in rows.iter().enumerate() {
            self.note(row.conn, place);
        }
    }
}
