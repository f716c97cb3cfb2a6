ghost use Rattle.std.specs.Prelude.{◌≡◌, ◌≢◌, [], unwrap_or, option_map, IfOk, IfSome, IsErrOf, map, string_bytes};
ghost use Rattle.clap.specs.Words.{fault_of, first_of, found_of, kind_of, matches_of, one_of, rows_of};
ghost use Rattle.client_words.specs.Words.{client_app};
ghost use Rattle.client_words.specs.Reading.{AreBad, AreChosen, Ask, IsFlag, IsNumber, refusal_of};
ghost use Rattle.client_words.specs.declared.reading.WordsRefusal.TheVariants.{BadWords as AreRefused};

use crate::choices::Choices;
use crate::command::client_command;
use clap::error::ErrorKind;
use clap::{ArgMatches, Error};
use std::alloc::Global;

/// How many bytes an ID and a program's name can have.
const NAME_LIMIT: usize = 512;

/// Why words ask for nothing.
#[derive(Clone, Copy, Debug, PartialEq, Eq)]
pub enum WordsRefusal {
    /// They aren't those of `smclient`, or a name in them is too long.
    BadWords,
    NoMemory,
}

/// What `clap` finds in the words.
fn find_matches<'a>(alloc: Global, words: &'a [String]) -> Result<ArgMatches<'a>, WordsRefusal>
    ensures read { IfOk result (λ m. fault_of client_app (map string_bytes words.entry.now) ≡ []) }
    ensures rows { IfOk result (λ m. rows_of (found_of m)
        ≡ matches_of client_app (map string_bytes words.entry.now)) }
    ensures bad { IsErrOf result AreRefused → fault_of client_app
        (map string_bytes words.entry.now) ≢ [] }
{
    let command = match client_command(alloc) {
        Ok(command) => command,
        Err(_) => return Err(WordsRefusal::NoMemory),
    };
    match command.try_get_matches_from(words) {
        Ok(matches) => Ok(matches),
        Err(error) => Err(refusal(&error)),
    }
}

/// Every error of `clap` but want of memory is one of the words.
fn refusal(error: &Error) -> WordsRefusal
    ensures { result ≡ refusal_of (kind_of error.now) }
{
    if error.kind() == ErrorKind::OutOfMemory {
        WordsRefusal::NoMemory
    } else {
        WordsRefusal::BadWords
    }
}

/// The value of an option.
fn text<'a>(matches: &ArgMatches<'a>, name: &str) -> Option<&'a str>
    ensures { option_map (λ s. s.now) result ≡ first_of name.now (rows_of (found_of matches.now)) }
{
    matches.get_str(name)
}

/// The value of an option, and this one where it is left out.
fn text_or<'a>(matches: &ArgMatches<'a>, name: &str, other: &'a str) -> &'a str
    ensures { result.now ≡ unwrap_or (first_of name.now (rows_of (found_of matches.now)))
        other.entry.now }
{
    match text(matches, name) {
        Some(text) => text,
        None => other,
    }
}

/// The number that an option has.
fn number(matches: &ArgMatches<'_>, name: &str) -> Option<u32>
    ensures { IfSome result (IsNumber (one_of name.now (rows_of (found_of matches.now)))) }
{
    matches.get_one::<u32>(name)
}

/// Whether a flag is given.
fn is_given(matches: &ArgMatches<'_>, name: &str) -> bool
    ensures { IsFlag (one_of name.now (rows_of (found_of matches.now))) result }
{
    matches.get_flag(name)
}

/// What these matches ask for.
fn choose<'a>(matches: &ArgMatches<'a>) -> Option<Choices<'a>>
    ensures { IfSome result (Ask (rows_of (found_of matches.now))) }
{
    let socket = text(matches, "socket")?;
    let authority = text(matches, "authority")?;
    let saves = number(matches, "saves")?;
    if saves == 0 {
        return None;
    }
    Some(Choices {
        socket,
        authority,
        id: text_or(matches, "id", ""),
        program: text_or(matches, "program", "smclient"),
        saves,
        interact: is_given(matches, "interact"),
        phase_two: is_given(matches, "phase-two"),
    })
}

/// What the words of `smclient` ask for, which leave out the program's name.
pub fn read_choices<'a>(alloc: Global, words: &'a [String]) -> Result<Choices<'a>, WordsRefusal>
    ensures chosen { IfOk result (AreChosen (map string_bytes words.entry.now)) }
    ensures bad { IsErrOf result AreRefused → AreBad (map string_bytes words.entry.now) }
{
    let matches = find_matches(alloc, words)?;
    let choices = match choose(&matches) {
        Some(choices) => choices,
        None => return Err(WordsRefusal::NoMemory),
    };
    if choices.id.len() > NAME_LIMIT || choices.program.len() > NAME_LIMIT {
        return Err(WordsRefusal::BadWords);
    }
    Ok(choices)
}
