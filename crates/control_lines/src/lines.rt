ghost use Rattle.std.specs.Prelude.{◌≡◌, ◌<◌, ◌∷◌, length, MatchOption};
ghost use Rattle.control_lines.specs.Lines.{lines_of};
ghost use Rattle.control_lines.specs.Parts.{IsWithout, SplitsOnce};

/// What stands before the first such byte, and what stands after it; `None` where there is none.
pub fn split_once(bytes: &[u8], byte: u8) -> Option<(&[u8], &[u8])>
    ensures { MatchOption result (IsWithout byte bytes.now) (λ parts.
        SplitsOnce byte bytes.now parts.0.now parts.1.now) }
{
    for (i, b) in bytes.iter().enumerate() {
        if *b == byte {
            return Some((&bytes[..i], &bytes[i + 1..]));
        }
    }
    None
}

/// The first line of a text without its newline, and what follows it.
pub fn next_line(text: &[u8]) -> (&[u8], &[u8])
    requires { 0 < length text.now }
    ensures lines { lines_of text.now ≡ result.0.now ∷ lines_of result.1.now }
    ensures shorter { length result.1.now < length text.now }
{
    match split_once(text, b'\n') {
        Some(parts) => parts,
        None => (text, &[]),
    }
}
