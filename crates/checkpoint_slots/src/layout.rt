ghost use Rattle.std.specs.Prelude.{◌≡◌};
ghost use Rattle.checkpoint_slots.specs.Layout.{gate_at, start_of, other as other_slot};

/// How many bytes the store's file has.
pub const STORE_BYTES: u64 = 16_777_280;

/// The byte of an open gate.
pub const OPEN: u8 = 0xa5;

/// How many bytes a slot has.
pub(crate) const SLOT_BYTES: u64 = 8_388_608;

/// One of the two slots of the store.
#[derive(Clone, Copy, Debug, PartialEq, Eq)]
pub enum Slot {
    First,
    Second,
}

impl Slot {
    /// The offset of its gate, which is one byte.
    pub fn gate(self) -> u64
        ensures { result ≡ gate_at self }
    {
        match self {
            Slot::First => 0,
            Slot::Second => 32,
        }
    }

    /// The offset of the slot itself, which has 8,388,608 bytes.
    pub fn start(self) -> u64
        ensures { result ≡ start_of self }
    {
        match self {
            Slot::First => 64,
            Slot::Second => 8_388_672,
        }
    }

    pub fn other(self) -> Slot
        ensures { result ≡ other_slot self }
    {
        match self {
            Slot::First => Slot::Second,
            Slot::Second => Slot::First,
        }
    }
}
