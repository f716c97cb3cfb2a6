ghost use Rattle.std.specs.Prelude.{◌≡◌, ◌↔◌, ◌∷◌, ◌++◌, [], codes, IsTrue, IfOk, OnOk};
ghost use Rattle.std.specs.Str.{bytes_eq};
ghost use Rattle.outer_agent.specs.Words.{AreFew, command_words as all_command_words, own_properties as all_own_properties, restart_words as all_restart_words, without_id};

use ice_values::{Array8List, Property, PropertyList, Spelled, put_word, put_words};
use owned_lists::{Duplicate, NoMemory, Octets, OctetsList};
use std::alloc::Global;

/// The name of the word behind which the ID stands in a manager's command.
const ID_WORD: &[u8] = b"--outer-id";

/// How many bytes an ID can have in a command.
const ID_LIMIT: usize = 512;

/// How many bytes spell the words of a command at most.
const WORDS_LIMIT: usize = 32_768;

/// Whether an agent can be made of these words: spelled as a LISTofARRAY8 they have at most 32,768 bytes.
pub fn are_few(words: &OctetsList) -> bool
    ensures { IsTrue result ↔ AreFew words.now }
{
    match words.size() {
        Some(count) => count <= WORDS_LIMIT,
        None => false,
    }
}

/// Whether a pair of this name says the ID.
fn is_id(name: &[u8]) -> bool
    ensures { result ≡ bytes_eq name.now (codes "--outer-id") }
{
    name == ID_WORD
}

/// Adds the pairs of words that don't say the ID. A last word without another is no pair.
fn put_pairs(words: &mut OctetsList, pairs: &[Octets]) -> Result<(), NoMemory>
    ensures { OnOk result (words.new ≡ words.old ++ without_id pairs.now) }
{
    let mut left = pairs;
    while let Some((name, others)) = left.split_first() {
        let Some((value, rest)) = others.split_first() else {
            return words.push(name.copy()?);
        };
        if !is_id(name.as_slice()) {
            words.push(name.copy()?)?;
            words.push(value.copy()?)?;
        }
        left = rest;
    }
    Ok(())
}

/// The words of a manager's command, without the pair that says its ID.
pub fn command_words(alloc: Global, words: &[Octets]) -> Result<OctetsList, NoMemory>
    ensures { IfOk result (λ left. left ≡ all_command_words words.now) }
{
    let mut left = OctetsList::new(alloc);
    if let Some((first, pairs)) = words.split_first() {
        left.push(first.copy()?)?;
        put_pairs(&mut left, pairs)?;
    }
    Ok(left)
}

/// The program as a list of one word.
fn program_words(alloc: Global) -> Result<Array8List, NoMemory>
    ensures { IfOk result (λ words. words ≡ codes "smnest" ∷ []) }
{
    let mut words = Array8List::new(alloc);
    put_word(alloc, &mut words, b"smnest")?;
    Ok(words)
}

/// The words that start the manager again under this ID.
fn restart_words(alloc: Global, command: &[Octets], id: &[u8]) -> Result<Array8List, NoMemory>
    ensures { IfOk result (λ words. words ≡ all_restart_words command.now id.now) }
{
    let mut words = program_words(alloc)?;
    put_words(alloc, &mut words, command)?;
    put_word(alloc, &mut words, ID_WORD)?;
    put_word(alloc, &mut words, id)?;
    Ok(words)
}

/// What a manager of this command sets under this ID.
pub fn own_properties(
    alloc: Global,
    command: &[Octets],
    id: &[u8],
) -> Result<PropertyList, NoMemory>
    ensures { IfOk result (λ set. set ≡ all_own_properties command.now id.now) }
{
    let mut set = PropertyList::new(alloc);
    set.push(Property::from_slices(alloc, b"Program", b"ARRAY8", program_words(alloc)?)?)?;
    if id.len() > ID_LIMIT {
        return Ok(set);
    }
    let restart = restart_words(alloc, command, id)?;
    set.push(Property::from_slices(alloc, b"RestartCommand", b"LISTofARRAY8", restart)?)?;
    Ok(set)
}
