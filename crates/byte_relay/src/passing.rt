ghost use Rattle.std.specs.Prelude.{◌≡◌, false, [], ◌∷◌, map, length, IfOk};
ghost use Rattle.sm_world.specs.declared.effects.Effect.TheVariants.{Sent, Shut};
ghost use Rattle.byte_relay.specs.Rows.{Grows, done_about, is_breaking, is_broken, passed_on};
ghost use Rattle.byte_relay.specs.Serving.{Does};

use crate::fault::{RelayFault, link_fault};
use crate::respeller::{Respeller, Taken};
use crate::row::Row;
use owned_lists::NoMemory;
use sm_world::{Conn, Links};

/// Whether a pair goes on.
#[derive(Clone, Copy, Debug, PartialEq, Eq)]
pub enum Pair {
    Open,
    Broken,
}

/// Sends bytes on a connection.
pub fn send<W: Links>(world: &mut W, to: Conn, bytes: &[u8]) -> Result<(), RelayFault>
    ensures { Does (W.outside world.old) (W.outside world.new) (Sent to bytes.now ∷ []) result }
{
    match world.send(to, bytes) {
        Ok(()) => Ok(()),
        Err(failure) => Err(link_fault(failure)),
    }
}

/// Closes a connection.
pub fn shut<W: Links>(world: &mut W, conn: Conn) -> Result<(), RelayFault>
    ensures { Does (W.outside world.old) (W.outside world.new) (Shut conn ∷ []) result }
{
    match world.shut(conn) {
        Ok(()) => Ok(()),
        Err(failure) => Err(link_fault(failure)),
    }
}

/// Does what a frame is to the other side, and says whether the pair goes on.
fn hand_on<W: Links>(
    world: &mut W,
    other: Conn,
    taken: Taken,
    bytes: &[u8],
) -> Result<Pair, RelayFault>
    ensures done { Does (W.outside world.old) (W.outside world.new)
        (done_about other taken bytes.now) result }
    ensures pair { IfOk result (λ pair. is_broken pair ≡ is_breaking taken) }
{
    match taken {
        Taken::Begins => Ok(Pair::Open),
        Taken::Passes => match send(world, other, bytes) {
            Ok(()) => Ok(Pair::Open),
            Err(fault) => Err(fault),
        },
        Taken::Breaks => Ok(Pair::Broken),
    }
}

/// Sends the other side what a piece of a connection completes, up to what breaks the pair.
pub fn pass<W: Links>(
    world: &mut W,
    respeller: &mut Respeller,
    row: &mut Row,
    other: Conn,
    piece: &[u8],
) -> Result<Pair, RelayFault>
    ensures done { Does (W.outside world.old) (W.outside world.new)
        (map (Sent other) (passed_on respeller.old.to row.old piece.now).messages) result }
    ensures pair { IfOk result (λ pair. is_broken pair
        ≡ (passed_on respeller.old.to row.old piece.now).broken) }
    ensures grows { IfOk result (λ pair. is_broken pair ≡ false → Grows row.old piece.now row.new) }
    ensures conn { row.new.conn ≡ row.old.conn }
    ensures to { respeller.new.to ≡ respeller.old.to }
{
    let mut left = piece;
    while !left.is_empty() {
        match row.cut(respeller, left) {
            Ok(None) => return Ok(Pair::Open),
            Ok(Some(cut)) => {
                left = &left[cut.count..];
                match hand_on(world, other, cut.taken, respeller.bytes()) {
                    Ok(Pair::Open) => {}
                    Ok(Pair::Broken) => return Ok(Pair::Broken),
                    Err(fault) => return Err(fault),
                }
            }
            Err(NoMemory) => return Err(RelayFault::NoMemory),
        }
    }
    Ok(Pair::Open)
}
