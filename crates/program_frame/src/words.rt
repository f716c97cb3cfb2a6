ghost use Rattle.std.specs.Prelude.{◌≡◌, ◌↔◌, IsTrue, [], ◌∷◌, map, string_bytes};

use std::io::ErrorKind;
use std::{env, io};

/// The words after the program's name. Where one of them isn't UTF-8 there are none, and a command
/// line without words is a faulty one too.
pub fn read_words(rt: &HostRuntime) -> io::Result<Vec<String>> {
    let mut args = match env::args(rt) {
        Ok(args) => args,
        Err(error) if error.kind() == ErrorKind::InvalidData => return Ok(Vec::new(rt.alloc())),
        Err(error) => return Err(error),
    };
    let _program = args.next();
    Ok(args.collect(rt.alloc())?)
}

/// Whether the words of a command line are this one alone.
pub fn are_one_word(words: &[String], word: &str) -> bool
    ensures { IsTrue result ↔ (map string_bytes words.now ≡ word.now ∷ []) }
{
    words.len() == 1 && words[0].as_str() == word
}
