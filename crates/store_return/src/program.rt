ghost use Rattle.checkpoint_records.specs.Rules.{KeepsRules};

use crate::{Fault, Order, restore, show};
use checkpoint_records::Book;
use owned_lists::{NoMemory, Octets};
use session_return::Which;
use sm_world::{Console, Disk};
use std::alloc::Global;

/// What an order puts back.
fn wanted(alloc: Global, session: Option<&str>) -> Result<Which, NoMemory> {
    match session {
        Some(name) => Ok(Which::One(Octets::from_slice(alloc, name.as_bytes())?)),
        None => Ok(Which::All),
    }
}

/// Does what is ordered with this kept book: it is put back, or what would come back is shown.
pub fn carry_out_order<W: Disk + Console>(
    alloc: Global,
    world: &mut W,
    order: Order<'_>,
    kept: &Book,
) -> Result<(), Fault>
    requires { KeepsRules kept.now }
{
    let which = match wanted(alloc, order.session) {
        Ok(which) => which,
        Err(NoMemory) => return Err(Fault::NoMemory),
    };
    if order.looks {
        show(alloc, world, order.store, &which, kept)
    } else {
        restore(alloc, world, order.store, &which, kept, order.beside)
    }
}
