ghost use Rattle.std.specs.Prelude.{◌≡◌};
ghost use Rattle.xsmp_properties.specs.declared.refusals.SetRefusal.TheVariants.{NoMemory as NoMemoryToSet};

use owned_lists::NoMemory;

/// Why properties aren't set.
#[derive(Clone, Copy, Debug, PartialEq, Eq)]
pub enum SetRefusal {
    /// The table would have more than 128 names, or more than 16,384 bytes would spell it.
    TableFull,
    NoMemory,
}

impl From<NoMemory> for SetRefusal {
    ghost from_gives = { λ _ refusal. refusal ≡ NoMemoryToSet };

    fn from(_error: NoMemory) -> SetRefusal {
        SetRefusal::NoMemory
    }
}
