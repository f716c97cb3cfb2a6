ghost use Rattle.std.specs.Prelude.{◌≡◌, ◌↔◌, ◌<◌, ℕ, List, [], ◌∷◌, length, IsTrue, IfOk, IfSome, MatchOption};
ghost use Rattle.control_lines.specs.Fields.{hex_text};
ghost use Rattle.trace_replay.specs.Commands.{fields_of, IsLowerHex, IsField, GoOn, IsCommand};
ghost use Rattle.trace_replay.specs.Steps.{LeadsTo};

use control_lines::{put_hex, read_hex, split_once};
use owned_lists::{NoMemory, Octets};
use std::alloc::Global;

/// What may stand next among the fields of a command.
#[derive(Clone, Copy, Debug, PartialEq, Eq)]
enum Place {
    /// The first word.
    FirstWord,
    /// A word, the mark of the directory or that of a pair.
    Words,
    /// The directory.
    Directory,
    /// The mark of a pair.
    Pairs,
    /// The name of a pair.
    Name,
    /// The value of a pair.
    Value,
}

/// Whether a field is one or more bytes in lower-case hex.
fn is_lower_hex(alloc: Global, field: &[u8]) -> Result<bool, NoMemory>
    ensures { IfOk result (λ is. IsTrue is ↔ IsLowerHex field.now) }
{
    let Some(bytes) = read_hex(alloc, field)? else {
        return Ok(false);
    };
    let mut text = Octets::new(alloc);
    put_hex(alloc, &mut text, bytes.as_slice())?;
    Ok(text.as_slice() == field)
}

/// Whether a field is lower-case hex, or `-` for no bytes.
fn is_field(alloc: Global, field: &[u8]) -> Result<bool, NoMemory>
    ensures { IfOk result (λ is. IsTrue is ↔ IsField field.now) }
{
    if field == b"-".as_slice() {
        return Ok(true);
    }
    is_lower_hex(alloc, field)
}

/// What may stand behind a word: another, or one of the two marks.
fn behind_words(alloc: Global, field: &[u8]) -> Result<Option<Place>, NoMemory>
    ensures { IfOk result (LeadsTo Place.Words field.now) }
{
    if field == b"@".as_slice() {
        return Ok(Some(Place::Directory));
    }
    if field == b"+".as_slice() {
        return Ok(Some(Place::Name));
    }
    if is_field(alloc, field)? {
        Ok(Some(Place::Words))
    } else {
        Ok(None)
    }
}

impl Place {
    /// The place behind this field; `None` where the field can't stand here.
    fn step(self, alloc: Global, field: &[u8]) -> Result<Option<Place>, NoMemory>
        ensures { IfOk result (LeadsTo self field.now) }
    {
        let (fits, next) = match self {
            Place::Words => return behind_words(alloc, field),
            Place::FirstWord => (is_field(alloc, field)?, Place::Words),
            Place::Directory => (is_lower_hex(alloc, field)?, Place::Pairs),
            Place::Pairs => (field == b"+".as_slice(), Place::Name),
            Place::Name => (is_field(alloc, field)?, Place::Value),
            Place::Value => (is_field(alloc, field)?, Place::Pairs),
        };
        if fits { Ok(Some(next)) } else { Ok(None) }
    }

    /// Whether a command may end here.
    fn may_end(self) -> bool
        ensures { IsTrue result ↔ GoOn self [] }
    {
        match self {
            Place::Words => true,
            Place::Pairs => true,
            _ => false,
        }
    }
}

/// The first field of a text, and what stands behind the space after it.
pub fn first_field(text: &[u8]) -> (&[u8], Option<&[u8]>)
    ensures fields { MatchOption result.1 (fields_of text.now ≡ result.0.now ∷ []) (λ rest.
        fields_of text.now ≡ result.0.now ∷ fields_of rest.now) }
    ensures begins { (fields : List (List ℕ)) × (fields_of text.now ≡ result.0.now ∷ fields) }
    ensures shorter { IfSome result.1 (λ rest. length rest.now < length text.now) }
{
    match split_once(text, b' ') {
        Some((field, rest)) => (field, Some(rest)),
        None => (text, None),
    }
}

/// Whether a text is the fields of a command, parted by one space each.
pub fn is_command(alloc: Global, text: &[u8]) -> Result<bool, NoMemory>
    ensures { IfOk result (λ is. IsTrue is ↔ IsCommand text.now) }
{
    let mut place = Place::FirstWord;
    let mut left = text;
    loop {
        let (field, rest) = first_field(left);
        place = match place.step(alloc, field)? {
            Some(next) => next,
            None => return Ok(false),
        };
        match rest {
            Some(rest) => left = rest,
            None => return Ok(place.may_end()),
        }
    }
}
