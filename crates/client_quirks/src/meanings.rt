ghost use Rattle.std.specs.Prelude.{◌≡◌, ◌++◌, ◌∷◌, [], codes, map, IfOk, OnOk};
ghost use Rattle.std.specs.List.{list_any};
ghost use Rattle.client_quirks.specs.Meanings.{is_command, is_text_name, is_hint_name, narrowed, is_wide, meant, is_line, is_shorter, is_amended as is_amended_by, amended as amended_by};

use frame_speech::without_nul;
use ice_values::{Array8, Array8List, Property};
use owned_lists::{Duplicate, NoMemory, Octets};
use std::alloc::Global;

/// Whether a property of this name is a command that the session manager runs (XSMP, chapter 11).
pub fn is_command(name: &[u8]) -> bool
    ensures { result ≡ is_command name.now }
{
    name == b"RestartCommand".as_slice()
        || name == b"DiscardCommand".as_slice()
        || name == b"ResignCommand".as_slice()
        || name == b"ShutdownCommand".as_slice()
}

fn is_text_name(name: &[u8]) -> bool
    ensures { result ≡ is_text_name name.now }
{
    name == b"Program".as_slice()
        || name == b"CurrentDirectory".as_slice()
        || name == b"UserID".as_slice()
}

fn is_hint_name(name: &[u8]) -> bool
    ensures { result ≡ is_hint_name name.now }
{
    name == b"RestartStyleHint".as_slice()
}

fn is_wide(value: &[u8]) -> bool
    ensures { result ≡ is_wide value.now }
{
    value.len() == 4 && value[1] == 0 && value[2] == 0 && (value[0] == 0 || value[3] == 0)
}

/// The one byte that four bytes stand for.
fn narrowed(value: &[u8]) -> &[u8]
    ensures { result.now ≡ narrowed value.now }
{
    if !is_wide(value) {
        return value;
    }
    if value[3] == 0 {
        &value[..1]
    } else {
        &value[3..]
    }
}

/// What a value of a property of this name is meant to be.
fn meant<'a>(name: &[u8], value: &'a [u8]) -> &'a [u8]
    ensures { result.now ≡ meant name.now value.now }
{
    if is_command(name) || is_text_name(name) {
        without_nul(value)
    } else if is_hint_name(name) {
        narrowed(value)
    } else {
        value
    }
}

/// Whether a command is one line of text.
fn is_line(property: &Property) -> bool
    ensures { result ≡ is_line property.now }
{
    is_command(property.name.as_slice())
        && property.kind.as_slice() == b"ARRAY8".as_slice()
        && property.values.as_slice().len() == 1
}

pub fn is_shorter(name: &[u8], value: &[u8]) -> bool
    ensures { result ≡ is_shorter name.now value.now }
{
    meant(name, value).len() != value.len()
}

fn are_shorter(name: &[u8], values: &[Array8]) -> bool
    ensures { result ≡ list_any (is_shorter name.now) values.now }
{
    values
        .iter()
        .any(|value| is_shorter(name, value.as_slice()))
}

/// Whether a property is meant otherwise than it is.
pub fn is_amended(property: &Property) -> bool
    ensures { result ≡ is_amended_by property.now }
{
    is_line(property) || are_shorter(property.name.as_slice(), property.values.as_slice())
}

/// Adds to a list what each value of a property of this name is meant to be.
fn add_meant(
    alloc: Global,
    name: &[u8],
    values: &[Array8],
    list: &mut Array8List,
) -> Result<(), NoMemory>
    ensures { OnOk result (list.new ≡ list.old ++ map (meant name.now) values.now) }
{
    for value in values {
        list.push(Octets::from_slice(alloc, meant(name, value.as_slice()))?)?;
    }
    Ok(())
}

/// The words with which the shell runs a line.
fn shell_words(alloc: Global) -> Result<Array8List, NoMemory>
    ensures { IfOk result (λ list. list ≡ codes "/bin/sh" ∷ codes "-c" ∷ []) }
{
    let mut list = Array8List::new(alloc);
    list.push(Octets::from_slice(alloc, b"/bin/sh")?)?;
    list.push(Octets::from_slice(alloc, b"-c")?)?;
    Ok(list)
}

/// The property as it is meant.
pub fn amended(alloc: Global, property: &Property) -> Result<Property, NoMemory>
    ensures { IfOk result (λ other. other ≡ amended_by property.now) }
{
    let is_line = is_line(property);
    let mut values = if is_line {
        shell_words(alloc)?
    } else {
        Array8List::new(alloc)
    };
    let name = property.name.as_slice();
    add_meant(alloc, name, property.values.as_slice(), &mut values)?;
    let kind = if is_line {
        Octets::from_slice(alloc, b"LISTofARRAY8")?
    } else {
        property.kind.copy()?
    };
    Ok(Property {
        name: property.name.copy()?,
        kind,
        values,
    })
}
