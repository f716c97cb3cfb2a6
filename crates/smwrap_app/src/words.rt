ghost use Rattle.std.specs.Prelude.{◌≡◌, ℕ, List, None, map, string_bytes, IfOk, IfSome, MatchOption};
ghost use Rattle.std.specs.List.{list_all};
ghost use Rattle.smwrap_app.specs.Words.{AreBad, AreChosen, AreChosenAt, Chosen, HasId, HasNumber, HasText, HasTexts, chosen_of, is_program as is_program_spec, is_text as is_text_spec};

use control_lines::read_number;
use owned_lists::NoMemory;
use std::alloc::Global;
use word_pairs::{is_word, value_from};

/// The most bytes of a word.
const WORD_LIMIT: usize = 512;

/// The most words of a program.
const PROGRAM_LIMIT: usize = 16;

/// How many words the options have that name no ID.
const FOUR_PAIRS: usize = 8;

/// How many they have with an ID.
const FIVE_PAIRS: usize = 10;

/// What the words of `smwrap` ask for.
#[derive(Clone, Copy, Debug)]
pub struct Choices<'a> {
    /// The path of the manager's socket.
    pub socket: &'a str,
    /// The path of the authority file.
    pub authority: &'a str,
    /// The file in which the program keeps its state.
    pub state: &'a str,
    /// The number of the copy with which it begins, or 0.
    pub from: u32,
    /// The ID of an earlier session, or an empty one.
    pub id: &'a str,
    /// The program and its arguments.
    pub program: &'a [String],
}

/// Whether a text has 1 to 512 bytes and no NUL.
fn is_text(text: &str) -> bool
    ensures { result ≡ is_text_spec text.now }
{
    !text.is_empty() && text.len() <= WORD_LIMIT && !text.as_bytes().contains(&0)
}

/// Whether each of some words has 1 to 512 bytes and no NUL.
fn are_texts(words: &[String]) -> bool
    ensures { result ≡ list_all (λ word. is_text_spec (string_bytes word)) words.now }
{
    words.iter().all(|word| is_text(word.as_str()))
}

/// Whether these are the words of a program.
fn is_program(words: &[String]) -> bool
    ensures { result ≡ is_program_spec (map string_bytes words.now) }
{
    if words.is_empty() {
        return false;
    }
    words.len() <= PROGRAM_LIMIT && are_texts(words)
}

/// The text that the pairs have with this name.
fn text_of<'a>(pairs: &'a [String], name: &str) -> Option<&'a str>
    ensures { MatchOption result
        ((text : List ℕ) → ¬ (HasText (map string_bytes pairs.now) name.now text))
        (λ text. HasText (map string_bytes pairs.now) name.now text.now) }
{
    match value_from(pairs, 0, name) {
        Some(text) => { if is_text(text) { Some(text) } else { None } }
        None => None,
    }
}

/// The number of a copy that the pairs have.
fn number_of(alloc: Global, pairs: &[String]) -> Result<Option<u32>, NoMemory>
    ensures { IfOk result (λ number. MatchOption number
        ((n : ℕ) → ¬ (HasNumber (map string_bytes pairs.now) n))
        (HasNumber (map string_bytes pairs.now))) }
{
    let Some(text) = value_from(pairs, 0, "--from") else {
        return Ok(None);
    };
    let Some(number) = read_number(alloc, text.as_bytes())? else {
        return Ok(None);
    };
    match u32::try_from(number) {
        Ok(number) => Ok(Some(number)),
        Err(_) => Ok(None),
    }
}

/// The ID that the pairs have. Four pairs have none.
fn id_of(pairs: &[String]) -> Option<&str>
    ensures { MatchOption result ((id : List ℕ) → ¬ (HasId (map string_bytes pairs.now) id))
        (λ id. HasId (map string_bytes pairs.now) id.now) }
{
    match pairs.len() {
        FOUR_PAIRS => Some(""),
        FIVE_PAIRS => text_of(pairs, "--id"),
        _ => None,
    }
}

/// What these pairs ask for, beside this number and this program.
fn choices_of<'a>(pairs: &'a [String], from: u32, program: &'a [String]) -> Option<Choices<'a>>
    ensures none { result ≡ None
        → (chosen : Chosen) → ¬ (HasTexts (map string_bytes pairs.now) chosen) }
    ensures some { IfSome result
        (λ choices. HasTexts (map string_bytes pairs.now) (chosen_of choices)) }
    ensures from { IfSome result (λ choices. choices.from ≡ from) }
    ensures program { IfSome result (λ choices. choices.program.now ≡ program.now) }
{
    Some(Choices {
        socket: text_of(pairs, "--socket")?,
        authority: text_of(pairs, "--authority")?,
        state: text_of(pairs, "--state")?,
        from,
        id: id_of(pairs)?,
        program,
    })
}

/// What the words ask for, where the options have so many of them.
fn read_at<'a>(
    alloc: Global,
    words: &'a [String],
    count: usize,
) -> Result<Option<Choices<'a>>, NoMemory>
    ensures { IfOk result (λ found. MatchOption found
        ((chosen : Chosen) → ¬ (AreChosenAt count (map string_bytes words.now) chosen))
        (λ choices. AreChosen (map string_bytes words.now) (chosen_of choices))) }
{
    if words.len() <= count || !is_word(words, count, "--") {
        return Ok(None);
    }
    let (pairs, rest) = words.split_at(count);
    let program = &rest[1..];
    let from = match number_of(alloc, pairs) {
        Ok(Some(from)) => from,
        Ok(None) => return Ok(None),
        Err(NoMemory) => return Err(NoMemory),
    };
    if is_program(program) {
        Ok(choices_of(pairs, from, program))
    } else {
        Ok(None)
    }
}

/// What the words of `smwrap` ask for, which leave out the program's name.
pub fn read_choices(alloc: Global, words: &[String]) -> Result<Option<Choices<'_>>, NoMemory>
    ensures { IfOk result (λ found. MatchOption found (AreBad (map string_bytes words.now))
        (λ choices. AreChosen (map string_bytes words.now) (chosen_of choices))) }
{
    match read_at(alloc, words, FOUR_PAIRS) {
        Ok(Some(choices)) => Ok(Some(choices)),
        Ok(None) => read_at(alloc, words, FIVE_PAIRS),
        Err(NoMemory) => Err(NoMemory),
    }
}
