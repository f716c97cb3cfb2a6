ghost use Rattle.std.specs.Prelude.{◌≡◌};
ghost use Rattle.display_place.specs.declared.refusals.DisplayRefusal.TheVariants.{NoMemory as OutOfMemory};

use owned_lists::NoMemory;

/// Which part of a text is wrong, so that it names no display.
#[derive(Clone, Copy, Debug, PartialEq, Eq)]
pub enum DisplayRefusal {
    /// There is no colon, behind which the number would stand.
    NoNumber,
    /// What stands before the slash is none of `unix`, `tcp` and `inet`.
    BadProtocol,
    /// With `tcp` or `inet` there has to be a host, other than `unix`.
    BadHost,
    /// The number isn't decimal, without leading zeros and below 59,536, so that it has a port.
    BadNumber,
    /// The screen isn't decimal, without leading zeros and below 256.
    BadScreen,
    NoMemory,
}

impl From<NoMemory> for DisplayRefusal {
    ghost from_gives = { λ _ refusal. refusal ≡ OutOfMemory };

    fn from(_error: NoMemory) -> DisplayRefusal {
        DisplayRefusal::NoMemory
    }
}
