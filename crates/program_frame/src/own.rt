ghost use Rattle.std.specs.Prelude.{◌≡◌, ◌∷◌, [], codes, map, string_bytes, Some, None, IfOk, IfErr, IfSome, OnOk};
ghost use Rattle.program_frame.specs.Own.{AsksFor, AsksForNone, LacksWords, ShowsOwn, printed_status};

use crate::words::are_one_word;
use sm_world::{Console, Failure};
use std::io;

/// The texts that a program gives itself, before anything else looks at its words.
#[derive(Clone, Copy, Debug)]
pub struct OwnTexts {
    /// To the word `--help` alone.
    pub help: &'static str,
    /// To the word `--version` alone.
    pub version: &'static str,
    /// Where there is no memory for the words.
    pub no_memory: &'static str,
}

impl OwnTexts {
    /// The text for these words, where they are one of the two.
    pub fn answer(&self, words: &[String]) -> Option<&'static str>
        ensures help { map string_bytes words.now ≡ codes "--help" ∷ [] →
            result ≡ Some self.now.help }
        ensures version { map string_bytes words.now ≡ codes "--version" ∷ [] →
            result ≡ Some self.now.version }
        ensures none { ¬ (map string_bytes words.now ≡ codes "--help" ∷ []) →
            ¬ (map string_bytes words.now ≡ codes "--version" ∷ []) → result ≡ None }
        ensures some { IfSome result (λ text.
            AsksFor self.now (map string_bytes words.now) text.now) }
    {
        if are_one_word(words, "--help") {
            Some(self.help)
        } else if are_one_word(words, "--version") {
            Some(self.version)
        } else {
            None
        }
    }

    /// Begins a program: gives its words, or the status of a program that is done. It is done where
    /// the words asked for one of its own texts, or where there was no memory to read them.
    pub fn begin<W: Console>(
        &self,
        words: io::Result<Vec<String>>,
        console: &mut W,
    ) -> Result<Vec<String>, u8>
        ensures handed { IfOk result (λ handed. words ≡ Ok handed) }
        ensures asked { IfOk result (λ handed. AsksForNone (map string_bytes handed.items)) }
        ensures kept { OnOk result (W.outside console.new ≡ W.outside console.old) }
        ensures shown { IfErr result (λ status. IfOk words (λ given. ShowsOwn self.now
            (map string_bytes given.items) (W.outside console.old) (W.outside console.new)
            status)) }
        ensures lacking { IfErr result (λ status. IfErr words (λ error. LacksWords self.now
            (W.outside console.old) (W.outside console.new) status)) }
    {
        let Ok(words) = words else {
            // Nothing else keeps the words from being read.
            let _ = console.print(self.no_memory.as_bytes());
            return Err(10);
        };
        match self.answer(words.as_slice()) {
            None => Ok(words),
            Some(text) => Err(own_status(console.print(text.as_bytes()))),
        }
    }
}

/// The status of a program that printed its own text.
fn own_status(printed: Result<(), Failure>) -> u8
    ensures { result ≡ printed_status printed }
{
    match printed {
        Ok(()) => 0,
        Err(Failure::Failed) => 6,
        Err(Failure::NoMemory) => 10,
    }
}
