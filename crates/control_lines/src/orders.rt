ghost use Rattle.std.specs.Prelude.{◌≡◌, ◌↔◌, IsTrue, IsNone, IfSome, IfOk, IfErr};
ghost use Rattle.control_lines.specs.Orders.{IsId, IsNoWord, SaysOrder};
ghost use Rattle.control_lines.specs.Script.{IsRefusal};
ghost use Rattle.control_lines.specs.declared.orders.OrderRefusal.TheVariants.{NoMemory as OutOfMemory};

use crate::fields::read_conn;
use owned_lists::{NoMemory, Octets};
use sm_world::Order;
use std::alloc::Global;

/// Why a line has no meaning.
#[derive(Clone, Copy, Debug, PartialEq, Eq)]
pub enum OrderRefusal {
    /// The line isn't of the grammar.
    BadLine,
    NoMemory,
}

impl From<NoMemory> for OrderRefusal {
    ghost from_gives = { λ _ refusal. refusal ≡ OutOfMemory };

    fn from(_error: NoMemory) -> OrderRefusal {
        OrderRefusal::NoMemory
    }
}

/// Whether the bytes are an ID: one or more from `!` to `~`.
fn is_id(id: &[u8]) -> bool
    ensures { IsTrue result ↔ IsId id.now }
{
    !id.is_empty() && id.iter().all(|b| b.is_ascii_graphic())
}

/// The order of one word that a line says.
fn read_word(line: &[u8]) -> Option<Order>
    ensures says { IfSome result (SaysOrder line.now) }
    ensures other { IsNone result → IsNoWord line.now }
{
    if line == b"checkpoint".as_slice() {
        return Some(Order::Checkpoint);
    }
    if line == b"shutdown".as_slice() {
        return Some(Order::Shutdown);
    }
    if line == b"cancel".as_slice() {
        return Some(Order::Cancel);
    }
    if line == b"status".as_slice() {
        return Some(Order::Status);
    }
    None
}

/// The order that a line says, without its newline: `checkpoint`, `shutdown`, `cancel`, `status`,
/// `drop N` or `forget ID`. Any other line is `BadLine`.
pub fn read_order(alloc: Global, line: &[u8]) -> Result<Order, OrderRefusal>
    ensures says { IfOk result (SaysOrder line.now) }
    ensures refused { IfErr result (IsRefusal (SaysOrder line.now)) }
{
    if let Some(field) = line.strip_prefix(b"drop ") {
        return read_conn(alloc, field)?
            .map(Order::DropConn)
            .ok_or(OrderRefusal::BadLine);
    }
    if let Some(id) = line.strip_prefix(b"forget ") {
        if is_id(id) {
            return Ok(Order::Forget(Octets::from_slice(alloc, id)?));
        }
        return Err(OrderRefusal::BadLine);
    }
    read_word(line).ok_or(OrderRefusal::BadLine)
}
