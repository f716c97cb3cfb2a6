ghost use Rattle.std.specs.Prelude.{◌≡◌, ◌≤◌, [], ◌∷◌, ◌++◌, length, take, codes, IfOk, OnOk};
ghost use Rattle.std.specs.Fmt.{decimal};
ghost use Rattle.state_saver.specs.Plans.{copy_path, own_properties, restart_words as all_words};

use crate::plan::SavePlan;
use ice_values::{Array8List, Property, PropertyList, put_word, put_words};
use owned_lists::{NoMemory, Octets};
use std::alloc::Global;

/// Adds a number as a word.
fn put_number(alloc: Global, words: &mut Array8List, number: u32) -> Result<(), NoMemory>
    ensures { OnOk result (words.new ≡ words.old ++ decimal number ∷ []) }
{
    let text = match number.to_string(alloc) {
        Ok(text) => text,
        Err(_) => return Err(NoMemory),
    };
    put_word(alloc, words, text.as_bytes())
}

/// The words that start the program again with the copy of this number.
fn restart_words(
    alloc: Global,
    plan: &SavePlan,
    number: u32,
    id: &[u8],
) -> Result<Array8List, NoMemory>
    ensures { IfOk result (λ words. words ≡ all_words plan.now number id.now) }
{
    let mut words = Array8List::new(alloc);
    put_words(alloc, &mut words, plan.before.as_slice())?;
    put_word(alloc, &mut words, b"--from")?;
    put_number(alloc, &mut words, number)?;
    put_word(alloc, &mut words, b"--id")?;
    put_word(alloc, &mut words, id)?;
    put_word(alloc, &mut words, b"--")?;
    put_words(alloc, &mut words, plan.program.as_slice())?;
    Ok(words)
}

/// The first of some words.
fn first_word(alloc: Global, words: &[Octets]) -> Result<Array8List, NoMemory>
    requires { 1 ≤ length words.now }
    ensures { IfOk result (λ first. first ≡ take 1 words.now) }
{
    let mut first = Array8List::new(alloc);
    put_words(alloc, &mut first, &words[..1])?;
    Ok(first)
}

/// The words that remove a copy.
fn discard_words(alloc: Global, path: &str) -> Result<Array8List, NoMemory>
    ensures { IfOk result (λ words. words ≡ codes "rm" ∷ path.now ∷ []) }
{
    let mut words = Array8List::new(alloc);
    put_word(alloc, &mut words, b"rm")?;
    put_word(alloc, &mut words, path.as_bytes())?;
    Ok(words)
}

/// What the client sets as it has made the copy of this number, which has this path.
pub fn own_set(
    alloc: Global,
    plan: &SavePlan,
    number: u32,
    path: &str,
    id: &[u8],
) -> Result<PropertyList, NoMemory>
    requires some { 1 ≤ length plan.now.program }
    requires path { path.now ≡ copy_path plan.now.state number }
    ensures { IfOk result (λ set. set ≡ own_properties plan.now number id.now) }
{
    let program = first_word(alloc, plan.program.as_slice())?;
    let restart = restart_words(alloc, plan, number, id)?;
    let discard = discard_words(alloc, path)?;
    let mut set = PropertyList::new(alloc);
    set.push(Property::from_slices(alloc, b"Program", b"ARRAY8", program)?)?;
    set.push(Property::from_slices(alloc, b"RestartCommand", b"LISTofARRAY8", restart)?)?;
    set.push(Property::from_slices(alloc, b"DiscardCommand", b"LISTofARRAY8", discard)?)?;
    Ok(set)
}
