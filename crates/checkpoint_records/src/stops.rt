ghost use Rattle.std.specs.Prelude.{◌≡◌};
ghost use Rattle.checkpoint_records.specs.declared.stops.Stop.TheVariants.{NoMemory as NoMemoryToGoOn};

use owned_lists::NoMemory;

/// Why reading stops before the end of a book.
#[derive(Clone, Copy)]
pub(crate) enum Stop {
    /// The bytes spell no book from where so many are left.
    Broken { left: usize },
    NoMemory,
}

impl From<NoMemory> for Stop {
    ghost from_gives = { λ _ stop. stop ≡ NoMemoryToGoOn };

    fn from(_error: NoMemory) -> Stop {
        Stop::NoMemory
    }
}
