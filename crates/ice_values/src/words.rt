ghost use Rattle.std.specs.Prelude.{◌≡◌, ◌++◌, ◌∷◌, [], OnOk};

use crate::{Array8, Array8List};
use owned_lists::{NoMemory, Octets};
use std::alloc::Global;

/// Adds a word.
pub fn put_word(alloc: Global, words: &mut Array8List, word: &[u8]) -> Result<(), NoMemory>
    ensures { OnOk result (words.new ≡ words.old ++ word.now ∷ []) }
{
    words.push(Array8::from_slice(alloc, word)?)
}

/// Adds words.
pub fn put_words(alloc: Global, words: &mut Array8List, more: &[Octets]) -> Result<(), NoMemory>
    ensures { OnOk result (words.new ≡ words.old ++ more.now) }
{
    for word in more {
        put_word(alloc, words, word.as_slice())?;
    }
    Ok(())
}
