use crate::Severity;
use owned_lists::Octets;
use std::marker::Model;

/// What an Error says, of ICE or of a protocol over it (ICE, chapter 7: Error). Its values are all
/// that follows the sequence number, padding included, so there is a multiple of 8 of them.
#[derive(Debug, Drop)]
pub struct ErrorBody {
    pub class: u16,
    /// The minor opcode of the message at fault.
    pub minor: u8,
    pub severity: Severity,
    /// The number of the message at fault among those of its sender, from 1 on.
    pub sequence: u32,
    pub values: Octets,
}

impl Model for ErrorBody {
    ghost use Rattle.std.specs.Prelude.{◌≡◌, ◌%◌, ◌^◌, ◌<◌, length};
    ghost use Rattle.ice_values.specs.Fields.{ErrorFields};

    ghost Value = { ErrorFields };

    ghost view = { λ error.
        record {
          class = error.class;
          minor = error.minor;
          severity = error.severity;
          sequence = error.sequence;
          values = error.values;
        } };

    ghost invariant = { λ error. (error.class < 2 ^ 16) × (error.sequence < 2 ^ 32)
        × (length error.values % 8 ≡ 0) };
}
