ghost use Rattle.std.specs.Prelude.{◌≡◌};
ghost use Rattle.ice_cookie.specs.declared.refusals.AuthorityRefusal.TheVariants.{NoMemory as NoMemoryForAuthority};

use owned_lists::NoMemory;

/// Why entries have no bytes, or bytes no entries.
#[derive(Clone, Copy, Debug, PartialEq, Eq)]
pub enum AuthorityRefusal {
    /// A field has more than 65,535 bytes.
    TooLong,
    /// From this offset on, which is where a whole entry ends or 0, bytes are left that begin with
    /// no whole entry.
    Short { at: u64 },
    NoMemory,
}

impl From<NoMemory> for AuthorityRefusal {
    ghost from_gives = { λ _ refusal. refusal ≡ NoMemoryForAuthority };

    fn from(_error: NoMemory) -> AuthorityRefusal {
        AuthorityRefusal::NoMemory
    }
}
