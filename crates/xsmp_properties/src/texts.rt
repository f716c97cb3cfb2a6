ghost use Rattle.std.specs.Prelude.{◌≡◌, length, option_copied};
ghost use Rattle.std.specs.List.{list_all};
ghost use Rattle.std.specs.Str.{bytes_eq, is_utf8};
ghost use Rattle.std.specs.Cmp.Lexicographic.{pointwise};
ghost use Rattle.xsmp_properties.specs.Readers.{values_of, is_text, is_variable, are_words};

use crate::PropertyTable;
use ice_values::Array8;

fn is_utf8(bytes: &[u8]) -> bool
    ensures { result ≡ is_utf8 bytes.now }
{
    str::from_utf8(bytes).is_ok()
}

/// Whether these bytes are UTF-8 without NUL.
pub fn is_text(bytes: &[u8]) -> bool
    ensures { result ≡ is_text bytes.now }
{
    is_utf8(bytes) && !bytes.contains(&0)
}

/// Whether these bytes name a variable of an environment.
pub(crate) fn is_variable(name: &[u8]) -> bool
    ensures { result ≡ is_variable name.now }
{
    !name.is_empty() && is_text(name) && !name.contains(&b'=')
}

fn are_texts(values: &[Array8]) -> bool
    ensures { result ≡ list_all is_text values.now }
{
    values.iter().all(|value| is_text(value.as_slice()))
}

/// Whether these are the words of a command: a program and its arguments.
pub fn are_words(values: &[Array8]) -> bool
    ensures { result ≡ are_words values.now }
{
    let [program, ..] = values else {
        return false;
    };
    !program.as_slice().is_empty() && are_texts(values)
}

/// Whether these are the same bytes, as those of two names or IDs. Most that differ are told apart
/// by their lengths, their last bytes or their first ones, which costs less than to begin with the
/// whole of them.
pub fn same_bytes(first: &[u8], second: &[u8]) -> bool
    ensures { result ≡ bytes_eq first.now second.now }
{
    let count = first.len();
    if count != second.len() {
        return false;
    }
    if count > 0 && (first[count - 1] != second[count - 1] || first[0] != second[0]) {
        return false;
    }
    same_each(first, second)
}

/// Whether bytes of one length are the same, one after another: names and IDs are short, so this
/// costs less than `==`, which is made for long texts.
fn same_each(first: &[u8], second: &[u8]) -> bool
    requires { length first.now ≡ length second.now }
    ensures { result ≡ bytes_eq first.now second.now }
{
    for (index, byte) in first.iter().enumerate() {
        if *byte != second[index] {
            return false;
        }
    }
    true
}

/// Whether these are the same texts in the same order.
pub fn same_texts(first: &[Array8], second: &[Array8]) -> bool
    ensures { result ≡ pointwise bytes_eq first.now second.now }
{
    let mut left = second;
    for text in first {
        let [other, others @ ..] = left else {
            return false;
        };
        if !same_bytes(text.as_slice(), other.as_slice()) {
            return false;
        }
        left = others;
    }
    left.is_empty()
}

/// The values under a name, where they are of a kind.
pub(crate) fn values_of<'a>(
    table: &'a PropertyTable,
    name: &[u8],
    kind: &[u8],
) -> Option<&'a [Array8]>
    ensures { option_copied result ≡ values_of name.now kind.now table.now }
{
    let property = table.get(name)?;
    if same_bytes(kind, property.kind.as_slice()) {
        Some(property.values.as_slice())
    } else {
        None
    }
}
