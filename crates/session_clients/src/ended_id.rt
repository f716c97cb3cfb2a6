ghost use Rattle.std.specs.Prelude.{◌≡◌};
ghost use Rattle.std.specs.Str.{bytes_eq};
ghost use Rattle.session_clients.specs.Ids.{end_of};

use std::marker::Model;
use xsmp_properties::same_bytes;

/// An ID with its end as a number, by which most IDs that differ are told apart.
#[derive(Drop)]
pub(crate) struct EndedId<'a> {
    bytes: &'a [u8],
    end: u32,
}

impl<'a> Model for EndedId<'a> {
    ghost use Rattle.std.specs.Prelude.{◌≡◌, ℕ, List};
    ghost use Rattle.session_clients.specs.Ids.{end_of};

    ghost Value = { List ℕ };

    ghost view = { λ id. id.bytes.now };

    ghost invariant = { λ id. id.end ≡ end_of id.bytes.now };
}

/// The last four bytes as a number; 0 where there are fewer.
fn end_of(bytes: &[u8]) -> u32
    ensures { result ≡ end_of bytes.now }
{
    let count = bytes.len();
    if count < 4 {
        return 0;
    }
    u32::from_be_bytes([
        bytes[count - 4],
        bytes[count - 3],
        bytes[count - 2],
        bytes[count - 1],
    ])
}

impl<'a> EndedId<'a> {
    pub(crate) fn new(bytes: &'a [u8]) -> EndedId<'a>
        ensures { result ≡ bytes.now }
    {
        EndedId {
            bytes,
            end: end_of(bytes),
        }
    }

    /// Whether both are the same ID.
    pub(crate) fn is_same(&self, other: &EndedId<'_>) -> bool
        ensures { result ≡ bytes_eq self.now other.now }
    {
        self.end == other.end && same_bytes(self.bytes, other.bytes)
    }
}
