ghost use Rattle.std.specs.Prelude.{◌≡◌, ◌≢◌, ◌+◌, ◌∷◌, ◌<◌, ◌^◌, ℕ, IfOk, List, [], codes, drop, get_or, length, map, string_bytes, MatchOption};
ghost use Rattle.std.specs.Fmt.{decimal};
ghost use Rattle.word_pairs.specs.Words.{option_in, words_taken};
ghost use Rattle.smd_app.specs.Words.{Places, IsPatience, IsPatienceOf, IsSessionOf, HavePaths, AreServe, AreRehearse, AreExercise, places_of};

use checkpoint_records::is_name;
use control_lines::read_number;
use owned_lists::NoMemory;
use program_frame::are_one_word;
use std::alloc::Global;
use word_pairs::{begin_with, is_word, path_of, value_of, word_at, words_of_option};

/// The most rounds of an exercise.
const ROUND_LIMIT: u64 = 1000;

/// What the words of a session name.
#[derive(Clone, Copy, Debug)]
pub struct Paths<'a> {
    /// The socket of the clients.
    pub socket: &'a str,
    /// The socket of the operator's orders.
    pub control: &'a str,
    /// The file with the checkpoints.
    pub store: &'a str,
    /// The file from which clients have the cookie.
    pub authority: &'a str,
    /// For how many milliseconds a client may be silent that is waited for; 0 is for ever.
    pub patience: u64,
    /// What the session is called among those of its store: 1 to 64 bytes from `!` to `~`.
    pub session: &'a str,
}

/// What the words of an exercise ask for.
#[derive(Clone, Copy, Debug, PartialEq, Eq)]
pub struct Exercise {
    /// Which clients want to save in the second phase: of round t, counted from 1, the lowest eight
    /// bits of this number and t together, one for each client.
    pub pattern: u64,
    /// How many checkpoints there are.
    pub rounds: u64,
}

/// The patience that a word states.
pub fn read_patience(alloc: Global, word: &str) -> Result<Option<u64>, NoMemory>
    ensures { IfOk result (λ found.
        MatchOption found ((patience : ℕ) → IsPatience patience → word.now ≢ decimal patience)
        (λ patience. IsPatience patience × (word.now ≡ decimal patience))) }
{
    match read_number(alloc, word.as_bytes())? {
        Some(number) => {
            if number == 0 {
                Ok(None)
            } else {
                Ok(Some(number))
            }
        }
        None => Ok(None),
    }
}

/// The patience that the words name, or 0 where they name none.
pub fn patience_of(alloc: Global, words: &[String]) -> Result<Option<u64>, NoMemory>
    ensures { IfOk result (λ found.
        MatchOption found ((patience : ℕ) →
        ¬ (IsPatienceOf (option_in (map string_bytes words.now) (codes "--patience")) patience))
        (IsPatienceOf (option_in (map string_bytes words.now) (codes "--patience")))) }
{
    match value_of(words, "--patience") {
        Some(word) => read_patience(alloc, word),
        None => Ok(Some(0)),
    }
}

/// The session that the words name, or `default` where they name none.
pub fn session_of(words: &[String]) -> Option<&str>
    ensures { MatchOption result ((session : List ℕ) →
        ¬ (IsSessionOf (option_in (map string_bytes words.now) (codes "--session")) session))
        (λ session. IsSessionOf (option_in (map string_bytes words.now) (codes "--session"))
        session.now) }
{
    match value_of(words, "--session") {
        Some(word) => {
            if is_name(word.as_bytes()) {
                Some(word)
            } else {
                None
            }
        }
        None => Some("default"),
    }
}

/// What the words name, with this patience and this session.
pub fn paths_of<'a>(words: &'a [String], patience: u64, session: &'a str) -> Option<Paths<'a>>
    ensures { MatchOption result ((places : Places) →
        ¬ (HavePaths (map string_bytes words.now) places)) (λ paths.
        HavePaths (map string_bytes words.now) (places_of paths)
        × (paths.patience ≡ patience) × (paths.session.now ≡ session.now)) }
{
    let socket = path_of(words, "--socket")?;
    let control = path_of(words, "--control")?;
    let store = path_of(words, "--store")?;
    let authority = path_of(words, "--authority")?;
    Some(Paths {
        socket,
        control,
        store,
        authority,
        patience,
        session,
    })
}

/// What the words name, with this patience, where so many of them stand behind the right first one.
fn places_in(words: &[String], patience: u64) -> Option<Paths<'_>>
    requires begins { map string_bytes words.now ≡ codes "serve" ∷ drop 1
        (map string_bytes words.now) }
    requires count { length (map string_bytes words.now)
        ≡ 9 + (words_taken (option_in (map string_bytes words.now) (codes "--patience"))
        + words_taken (option_in (map string_bytes words.now) (codes "--session"))) }
    requires patience { IsPatienceOf (option_in (map string_bytes words.now) (codes "--patience"))
        patience }
    ensures { MatchOption result ((places : Places) →
        ¬ (AreServe (map string_bytes words.now) places)) (λ paths.
        AreServe (map string_bytes words.now) (places_of paths)) }
{
    match session_of(words) {
        Some(session) => paths_of(words, patience, session),
        None => None,
    }
}

/// What the words of a session name, where they are `serve` and four to six pairs in any order: one
/// with the name of each path, and one with that of the patience and one with that of the session,
/// where there are such.
pub fn read_paths(alloc: Global, words: &[String]) -> Result<Option<Paths<'_>>, NoMemory>
    ensures { IfOk result (λ found.
        MatchOption found ((places : Places) → ¬ (AreServe (map string_bytes words.now) places))
        (λ paths. AreServe (map string_bytes words.now) (places_of paths))) }
{
    if !begin_with(words, "serve") {
        return Ok(None);
    }
    let options = words_of_option(words, "--patience") + words_of_option(words, "--session");
    if words.len() != 9 + options {
        return Ok(None);
    }
    match patience_of(alloc, words)? {
        Some(patience) => Ok(places_in(words, patience)),
        None => Ok(None),
    }
}

/// The patience of a rehearsal, where the words are `rehearse` and, where there is one, its patience.
pub fn read_rehearse(alloc: Global, words: &[String]) -> Result<Option<u64>, NoMemory>
    ensures { IfOk result (λ found.
        MatchOption found ((patience : ℕ) → ¬ (AreRehearse (map string_bytes words.now) patience))
        (λ patience. AreRehearse (map string_bytes words.now) patience)) }
{
    if are_one_word(words, "rehearse") {
        return Ok(Some(0));
    }
    if words.len() != 2 || !is_word(words, 0, "rehearse") {
        return Ok(None);
    }
    read_patience(alloc, word_at(words, 1))
}

/// A word that is a number.
fn number_at(alloc: Global, words: &[String], at: usize) -> Result<Option<u64>, NoMemory>
    requires { at < length words.now }
    ensures { IfOk result (λ number.
        MatchOption number ((n : ℕ) → n < 2 ^ 64 →
        get_or (map string_bytes words.now) at [] ≢ decimal n) (λ n.
        get_or (map string_bytes words.now) at [] ≡ decimal n)) }
{
    read_number(alloc, word_at(words, at).as_bytes())
}

/// The exercise that the words ask for, where they are `exercise` and two numbers without leading
/// zeros, of which the second is from 1 to 1,000.
pub fn read_exercise(alloc: Global, words: &[String]) -> Result<Option<Exercise>, NoMemory>
    ensures { IfOk result (λ found.
        MatchOption found ((pattern rounds : ℕ) →
        ¬ (AreExercise (map string_bytes words.now) pattern rounds)) (λ exercise.
        AreExercise (map string_bytes words.now) exercise.pattern exercise.rounds)) }
{
    if words.len() != 3 || !is_word(words, 0, "exercise") {
        return Ok(None);
    }
    let Some(pattern) = number_at(alloc, words, 1)? else {
        return Ok(None);
    };
    let Some(rounds) = number_at(alloc, words, 2)? else {
        return Ok(None);
    };
    if 1 <= rounds && rounds <= ROUND_LIMIT {
        Ok(Some(Exercise { pattern, rounds }))
    } else {
        Ok(None)
    }
}
