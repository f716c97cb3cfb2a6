ghost use Rattle.std.specs.Prelude.{◌≡◌, IfOk, codes, is_some, option_copied};
ghost use Rattle.xsmp_properties.specs.Readers.{directory_in, directory_of as directory_of_items, is_environment, in_pairs, environment_in, environment_of as environment_of_items, command_of as command_of_items, words_in};

use crate::PropertyTable;
use crate::texts::{are_words, is_text, is_variable, values_of};
use ice_values::Array8;
use owned_lists::{Command, Duplicate, NoMemory, Octets, OctetsList, PairList};
use std::alloc::Global;

const LIST: &[u8] = b"LISTofARRAY8";

fn directory_in(alloc: Global, values: &[Array8]) -> Result<Octets, NoMemory>
    ensures { IfOk result (λ path. path ≡ directory_in values.now) }
{
    let [path] = values else {
        return Ok(Octets::new(alloc));
    };
    if is_text(path.as_slice()) {
        path.copy()
    } else {
        Ok(Octets::new(alloc))
    }
}

/// The value of CurrentDirectory, which is one text of kind `ARRAY8`, in UTF-8 without NUL. Where
/// there is no such property it is empty.
pub fn directory_of(alloc: Global, table: &PropertyTable) -> Result<Octets, NoMemory>
    ensures { IfOk result (λ path. path ≡ directory_of_items table.now) }
{
    match values_of(table, b"CurrentDirectory", b"ARRAY8") {
        Some(values) => directory_in(alloc, values),
        None => Ok(Octets::new(alloc)),
    }
}

/// Whether these are the names and values of an environment in turn.
pub fn is_environment(values: &[Array8]) -> bool
    ensures { result ≡ is_environment values.now }
{
    let mut left = values;
    while let [name, value, others @ ..] = left {
        if !is_variable(name.as_slice()) || !is_text(value.as_slice()) {
            return false;
        }
        left = others;
    }
    left.is_empty()
}

/// Names and values in turn as pairs. A name without a value is left out.
pub fn in_pairs(alloc: Global, values: &[Array8]) -> Result<PairList, NoMemory>
    ensures { IfOk result (λ pairs. pairs ≡ in_pairs values.now) }
{
    let mut pairs = PairList::new(alloc);
    let mut left = values;
    while let [name, value, others @ ..] = left {
        pairs.push((name.copy()?, value.copy()?))?;
        left = others;
    }
    Ok(pairs)
}

fn environment_in(alloc: Global, values: &[Array8]) -> Result<PairList, NoMemory>
    ensures { IfOk result (λ pairs. pairs ≡ environment_in values.now) }
{
    if is_environment(values) {
        in_pairs(alloc, values)
    } else {
        Ok(PairList::new(alloc))
    }
}

/// The values of Environment, which are names and texts in turn, of kind `LISTofARRAY8`, in UTF-8
/// without NUL; a name isn't empty and holds no `=`. Where there is no such property there are no
/// pairs.
pub fn environment_of(alloc: Global, table: &PropertyTable) -> Result<PairList, NoMemory>
    ensures { IfOk result (λ pairs. pairs ≡ environment_of_items table.now) }
{
    match values_of(table, b"Environment", LIST) {
        Some(values) => environment_in(alloc, values),
        None => Ok(PairList::new(alloc)),
    }
}

fn words_of(alloc: Global, values: &[Array8]) -> Result<OctetsList, NoMemory>
    ensures { IfOk result (λ words. words ≡ values.now) }
{
    let mut words = OctetsList::new(alloc);
    for value in values {
        words.push(value.copy()?)?;
    }
    Ok(words)
}

/// The words of the command that stands under a name, where there is one.
fn words_in<'a>(table: &'a PropertyTable, name: &[u8]) -> Option<&'a [Array8]>
    ensures { option_copied result ≡ words_in name.now table.now }
{
    let values = values_of(table, name, LIST)?;
    if are_words(values) {
        Some(values)
    } else {
        None
    }
}

/// Whether `command_of` finds a command under a name. This takes no memory.
pub fn has_command(table: &PropertyTable, name: &[u8]) -> bool
    ensures { result ≡ is_some (command_of_items name.now table.now) }
{
    words_in(table, name).is_some()
}

/// The command that stands under a name, such as RestartCommand: its words are texts of kind
/// `LISTofARRAY8`, in UTF-8 without NUL, of which there is one at least, and the first isn't empty.
/// Its directory and environment are those of the same table. None where there is no such property.
pub fn command_of(
    alloc: Global,
    table: &PropertyTable,
    name: &[u8],
) -> Result<Option<Command>, NoMemory>
    ensures { IfOk result (λ command. command ≡ command_of_items name.now table.now) }
{
    let Some(words) = words_in(table, name) else {
        return Ok(None);
    };
    Ok(Some(Command {
        words: words_of(alloc, words)?,
        directory: directory_of(alloc, table)?,
        environment: environment_of(alloc, table)?,
    }))
}
