ghost use Rattle.std.specs.Prelude.{◌↔◌, ℕ, List, IsTrue, IsUtf8, IfOk, MatchOption};
ghost use Rattle.adopted_words.specs.Words.{AreWords, IsWord};

use control_lines::split_once;
use owned_lists::{NoMemory, Octets, OctetsList};
use std::alloc::Global;

fn is_text(bytes: &[u8]) -> bool
    ensures { IsTrue result ↔ IsUtf8 bytes.now }
{
    match str::from_utf8(bytes) {
        Ok(_) => true,
        Err(_) => false,
    }
}

/// Whether some bytes are a text without blanks and control characters.
pub(crate) fn is_word(bytes: &[u8]) -> bool
    ensures { IsTrue result ↔ IsWord bytes.now }
{
    !bytes.is_empty() && bytes.iter().all(|byte| *byte > b' ') && is_text(bytes)
}

/// The words that a text is, with a blank between two.
pub(crate) fn read_words(alloc: Global, text: &[u8]) -> Result<Option<OctetsList>, NoMemory>
    ensures { IfOk result (λ found.
        MatchOption found ((words : List (List ℕ)) → ¬ (AreWords text.now words))
        (AreWords text.now)) }
{
    let mut words = OctetsList::new(alloc);
    let mut rest = text;
    while let Some((word, after)) = split_once(rest, b' ') {
        if !is_word(word) {
            return Ok(None);
        }
        words.push(Octets::from_slice(alloc, word)?)?;
        rest = after;
    }
    if !is_word(rest) {
        return Ok(None);
    }
    words.push(Octets::from_slice(alloc, rest)?)?;
    Ok(Some(words))
}
