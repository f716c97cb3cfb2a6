ghost use Rattle.std.specs.Prelude.{◌≡◌};
ghost use Rattle.checkpoint_records.specs.declared.refusals.BookRefusal.TheVariants.{NoMemory as NoMemoryToRead};

use owned_lists::NoMemory;

/// Why bytes aren't read as a book.
#[derive(Clone, Copy, Debug, PartialEq, Eq)]
pub enum BookRefusal {
    /// They spell no book. This is the offset of the first part that can't be cut off, has unused
    /// or padding bytes that aren't zero, or breaks a rule; 0 where the head is bad; and the end of
    /// the last part where bytes are left.
    Damaged { at: u64 },
    NoMemory,
}

impl From<NoMemory> for BookRefusal {
    ghost from_gives = { λ _ refusal. refusal ≡ NoMemoryToRead };

    fn from(_error: NoMemory) -> BookRefusal {
        BookRefusal::NoMemory
    }
}
