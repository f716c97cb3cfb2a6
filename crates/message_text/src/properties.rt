ghost use Rattle.std.specs.Prelude.{◌≡◌, ◌++◌, OnOk};
ghost use Rattle.std.specs.List.{flat_map};
ghost use Rattle.message_text.specs.Properties.{indent, is_known as known_in, is_number as number_in, kind_note, property_line, property_lines, typed_text, value_text, values_text};

use crate::words::{put_number, put_plain, put_quoted};
use ice_values::{Array8, Property};
use owned_lists::{NoMemory, Octets};
use std::alloc::Global;

/// Whether the values of a property of this type are numbers of one byte.
fn is_number(kind: &[u8]) -> bool
    ensures { result ≡ number_in kind.now }
{
    kind == b"CARD8".as_slice()
}

/// Whether the values tell a type by themselves.
fn is_known(kind: &[u8]) -> bool
    ensures { result ≡ known_in kind.now }
{
    is_number(kind) || kind == b"ARRAY8".as_slice() || kind == b"LISTofARRAY8".as_slice()
}

/// Appends a type behind a property's name, where its values don't tell it.
fn put_kind(alloc: Global, out: &mut Octets, kind: &[u8]) -> Result<(), NoMemory>
    ensures { OnOk result (out.new ≡ out.old ++ kind_note kind.now) }
{
    if is_known(kind) {
        return Ok(());
    }
    out.append(b" (")?;
    put_plain(alloc, out, kind)?;
    out.append(b")")
}

/// Appends a value by its type.
fn put_value(alloc: Global, out: &mut Octets, number: bool, value: &[u8]) -> Result<(), NoMemory>
    ensures { OnOk result (out.new ≡ out.old ++ value_text number value.now) }
{
    out.append(b" ")?;
    match value {
        [byte] if number => put_number(alloc, out, (*byte).into()),
        _ => put_quoted(alloc, out, value),
    }
}

/// Appends values by their type.
fn put_values(
    alloc: Global,
    out: &mut Octets,
    number: bool,
    values: &[Array8],
) -> Result<(), NoMemory>
    ensures { OnOk result (out.new ≡ out.old ++ values_text number values.now) }
{
    for value in values {
        put_value(alloc, out, number, value.as_slice())?;
    }
    Ok(())
}

/// Appends values of a type, behind the type where they don't tell it.
fn put_typed(
    alloc: Global,
    out: &mut Octets,
    kind: &[u8],
    values: &[Array8],
) -> Result<(), NoMemory>
    ensures { OnOk result (out.new ≡ out.old ++ typed_text kind.now values.now) }
{
    put_kind(alloc, out, kind)?;
    put_values(alloc, out, is_number(kind), values)
}

/// Appends what stands in front of a property: a newline and twelve spaces.
fn put_indent(out: &mut Octets) -> Result<(), NoMemory>
    ensures { OnOk result (out.new ≡ out.old ++ indent) }
{
    out.append(b"\n            ")
}

/// Appends a property in a line of its own, behind the newline of what stands before it.
fn put_property(alloc: Global, out: &mut Octets, property: &Property) -> Result<(), NoMemory>
    ensures { OnOk result (out.new ≡ out.old ++ property_line property.now) }
{
    put_indent(out)?;
    put_plain(alloc, out, property.name.as_slice())?;
    put_typed(
        alloc,
        out,
        property.kind.as_slice(),
        property.values.as_slice(),
    )
}

/// Appends properties, each in a line of its own.
pub fn put_property_lines(
    alloc: Global,
    out: &mut Octets,
    properties: &[Property],
) -> Result<(), NoMemory>
    ensures { OnOk result (out.new ≡ out.old ++ property_lines properties.now) }
{
    for property in properties {
        put_property(alloc, out, property)?;
    }
    Ok(())
}
