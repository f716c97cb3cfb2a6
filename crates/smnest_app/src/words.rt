ghost use Rattle.std.specs.Prelude.{◌≡◌, ◌↔◌, ◌≤◌, ◌∷◌, ◌+◌, ℕ, List, IsTrue, IfOk, MatchOption, codes, drop, length, map, string_bytes};
ghost use Rattle.std.specs.List.{list_all};
ghost use Rattle.word_pairs.specs.Words.{option_in, words_taken};
ghost use Rattle.smd_app.specs.Words.{IsPatienceOf};
ghost use Rattle.smnest_app.specs.Words.{AreRehearse, AreServe, IsIdOf, NestPlaces, is_id as is_id_spec, is_id_byte as is_id_byte_spec, places_of as places_by};

use owned_lists::{NoMemory, Octets, OctetsList};
use smd_app::{Paths, paths_of, patience_of, session_of};
use std::alloc::Global;
use word_pairs::{begin_with, path_of, value_of, words_of_option};

/// The most bytes of an ID.
const ID_LIMIT: usize = 512;

/// What the words of a session inside another name.
#[derive(Clone, Copy, Debug)]
pub struct NestPaths<'a> {
    /// The paths of the session itself, its patience and its name.
    pub own: Paths<'a>,
    /// The outer manager's socket.
    pub outer: &'a str,
    /// The file with the outer cookie.
    pub authority: &'a str,
    /// The ID of an earlier session of the outer manager's, or an empty one.
    pub id: &'a str,
}

/// Copies of some words.
pub fn word_list(alloc: Global, words: &[String]) -> Result<OctetsList, NoMemory>
    ensures { IfOk result (λ list. list ≡ map string_bytes words.now) }
{
    let mut list = OctetsList::new(alloc);
    for word in words {
        list.push(Octets::from_slice(alloc, word.as_bytes())?)?;
    }
    Ok(list)
}

/// Whether a byte may stand in an ID.
fn is_id_byte(byte: u8) -> bool
    ensures { result ≡ is_id_byte_spec byte }
{
    b'!' <= byte && byte <= b'~'
}

/// Whether each of some bytes may stand in an ID.
fn are_id_bytes(bytes: &[u8]) -> bool
    ensures { result ≡ list_all is_id_byte_spec bytes.now }
{
    bytes.iter().all(|byte| is_id_byte(*byte))
}

/// Whether a word can be an ID: it has 1 to 512 bytes from `!` to `~`.
fn is_id(word: &str) -> bool
    ensures { result ≡ is_id_spec word.now }
{
    !word.is_empty() && word.len() <= ID_LIMIT && are_id_bytes(word.as_bytes())
}

/// The ID that the words name, or an empty one where they name none.
fn id_of(words: &[String]) -> Option<&str>
    ensures { MatchOption result
        ((id : List ℕ) → ¬ (IsIdOf (option_in (map string_bytes words.now) (codes "--outer-id")) id))
        (λ id. IsIdOf (option_in (map string_bytes words.now) (codes "--outer-id")) id.now) }
{
    match value_of(words, "--outer-id") {
        Some(word) => { if is_id(word) { Some(word) } else { None } }
        None => Some(""),
    }
}

/// What the words name, with this patience, where so many of them stand behind the right first one.
fn places_of(words: &[String], patience: u64) -> Option<NestPaths<'_>>
    requires begins { map string_bytes words.now ≡ codes "serve" ∷ drop 1
        (map string_bytes words.now) }
    requires count { length (map string_bytes words.now) ≡ 13 +
        (words_taken (option_in (map string_bytes words.now) (codes "--patience")) +
        (words_taken (option_in (map string_bytes words.now) (codes "--session")) + words_taken
        (option_in (map string_bytes words.now) (codes "--outer-id")))) }
    requires patience { IsPatienceOf (option_in (map string_bytes words.now) (codes "--patience"))
        patience }
    ensures { MatchOption result
        ((places : NestPlaces) → ¬ (AreServe (map string_bytes words.now) places))
        (λ paths. AreServe (map string_bytes words.now) (places_by paths)) }
{
    Some(NestPaths {
        own: paths_of(words, patience, session_of(words)?)?,
        outer: path_of(words, "--outer")?,
        authority: path_of(words, "--outer-authority")?,
        id: id_of(words)?,
    })
}

/// What the words of a session inside another name, where they are `serve` and six to nine pairs in
/// any order: one with the name of each path, and one with that of the patience, one with that of the
/// session and one with that of the ID, where there are such.
pub fn read_places(alloc: Global, words: &[String]) -> Result<Option<NestPaths<'_>>, NoMemory>
    ensures { IfOk result (λ found. MatchOption found
        ((places : NestPlaces) → ¬ (AreServe (map string_bytes words.now) places))
        (λ paths. AreServe (map string_bytes words.now) (places_by paths))) }
{
    if !begin_with(words, "serve") {
        return Ok(None);
    }
    let options = words_of_option(words, "--patience")
        + (words_of_option(words, "--session") + words_of_option(words, "--outer-id"));
    if words.len() != 13 + options {
        return Ok(None);
    }
    match patience_of(alloc, words) {
        Ok(Some(patience)) => Ok(places_of(words, patience)),
        Ok(None) => Ok(None),
        Err(NoMemory) => Err(NoMemory),
    }
}

/// The ID of a rehearsal, where the words are `rehearse` and, where there is one, the pair of its ID.
pub fn read_rehearsal(words: &[String]) -> Option<&str>
    ensures { MatchOption result ((id : List ℕ) → ¬ (AreRehearse (map string_bytes words.now) id))
        (λ id. AreRehearse (map string_bytes words.now) id.now) }
{
    if !begin_with(words, "rehearse") {
        return None;
    }
    if words.len() != 1 + words_of_option(words, "--outer-id") {
        return None;
    }
    id_of(words)
}
