ghost use Rattle.std.specs.Prelude.{◌≡◌, ◌≤◌, length};
ghost use Rattle.byte_relay.specs.Orders.{is_byte_order as is_byte_order_at};

use crate::respelling::{RespellFault, respell};
use ice_values::{Endian, read_card32};
use owned_lists::{NoMemory, Octets};
use std::alloc::Global;

/// What a frame is to the other side.
#[derive(Clone, Copy, Debug, PartialEq, Eq)]
pub enum Taken {
    /// The first of its stream, which tells the sender's order.
    Begins,
    /// A message, which is passed on.
    Passes,
    /// Nothing that may stand there.
    Breaks,
}

/// Whether a frame is a ByteOrder.
fn is_byte_order(endian: Endian, frame: &[u8]) -> bool
    requires { 8 ≤ length frame.now }
    ensures { result ≡ is_byte_order_at endian frame.now }
{
    frame[0] == 0 && frame[1] == 1 && frame[2] < 2 && read_card32(endian, &frame[4..]) == 0
}

/// Spells messages anew in one order.
#[derive(Debug, Drop)]
pub struct Respeller {
    alloc: Global,
    to: Endian,
    /// The message that is to be passed on. Its memory serves the next one.
    bytes: Octets,
}

impl Respeller {
    ghost use Rattle.std.specs.Prelude.{◌≡◌, ◌≤◌, true, false, length, IfOk, OnOk};
    ghost use Rattle.ice_framing.specs.Frames.{byte_limit};
    ghost use Rattle.ice_framing.specs.Parts.{Whole};
    ghost use Rattle.ice_values.specs.Frames.{IsFrame};
    ghost use Rattle.byte_relay.specs.Relaying.{brings};
    ghost use Rattle.byte_relay.specs.Rows.{brought};

    /// This takes no memory.
    pub fn new(alloc: Global, to: Endian) -> Respeller
        ensures { result.to ≡ to }
    {
        Respeller {
            alloc,
            to,
            bytes: Octets::new(alloc),
        }
    }

    /// The order in which messages are spelled.
    pub fn order(&self) -> Endian
        ensures { result ≡ self.now.to }
    {
        self.to
    }

    /// The message that is to be passed on.
    pub fn bytes(&self) -> &[u8]
        ensures { result.now ≡ self.now.bytes }
    {
        self.bytes.as_slice()
    }

    /// Takes a frame, the first of its stream or a later one.
    pub fn take(&mut self, first: bool, endian: Endian, frame: &[u8]) -> Result<Taken, NoMemory>
        requires header { 8 ≤ length frame.now }
        requires later { first ≡ false → IsFrame endian frame.now }
        requires within { length frame.now ≤ byte_limit }
        ensures taken { IfOk result (λ taken.
            brings self.old.to first (Whole (record { endian = endian; bytes = frame.now }))
            ≡ brought taken self.new.bytes) }
        ensures to { self.new.to ≡ self.old.to }
    {
        let order = is_byte_order(endian, frame);
        if first {
            return Ok(if order { Taken::Begins } else { Taken::Breaks });
        }
        if order {
            return Ok(Taken::Breaks);
        }
        self.bytes.truncate(0);
        match respell(self.alloc, endian, frame, self.to, &mut self.bytes) {
            Ok(()) => Ok(Taken::Passes),
            Err(RespellFault::Unspelled) => Ok(Taken::Breaks),
            Err(RespellFault::NoMemory) => Err(NoMemory),
        }
    }
}
