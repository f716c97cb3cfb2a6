ghost use Rattle.std.specs.Prelude.{MatchOption};
ghost use Rattle.control_lines.specs.Parts.{IsWithout};
ghost use Rattle.session_places.specs.Addresses.{SplitsLast};

/// What stands before the last such byte, and what stands after it; `None` where there is none.
pub(crate) fn split_at_last(bytes: &[u8], byte: u8) -> Option<(&[u8], &[u8])>
    ensures { MatchOption result (IsWithout byte bytes.now) (λ parts.
        SplitsLast byte bytes.now parts.0.now parts.1.now) }
{
    let mut at = bytes.len();
    while at > 0 {
        if bytes[at - 1] == byte {
            return Some((&bytes[..at - 1], &bytes[at..]));
        }
        at -= 1;
    }
    None
}
