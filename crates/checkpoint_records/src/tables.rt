ghost use Rattle.std.specs.Prelude.{◌≡◌, ◌↔◌, IsTrue, IfOk, IfSome, IfNone};
ghost use Rattle.std.specs.List.{list_any};
ghost use Rattle.std.specs.Str.{bytes_eq};
ghost use Rattle.xsmp_properties.specs.Tables.{AreNamesDistinct};
ghost use Rattle.checkpoint_records.specs.Rules.{IsTable};

use ice_values::{Property, PropertyList};
use owned_lists::NoMemory;
use std::alloc::Global;
use xsmp_properties::{PropertyTable, SetRefusal};

const NAME_LIMIT: usize = 128;

fn has_name(properties: &[Property], name: &[u8]) -> bool
    ensures { result ≡ list_any (λ property. bytes_eq name.now property.name) properties.now }
{
    properties
        .iter()
        .any(|property| name == property.name.as_slice())
}

/// Whether no two properties have the same name.
fn are_names_distinct(properties: &[Property]) -> bool
    ensures { IsTrue result ↔ AreNamesDistinct properties.now }
{
    let mut left = properties;
    while let [property, others @ ..] = left {
        if has_name(others, property.name.as_slice()) {
            return false;
        }
        left = others;
    }
    true
}

/// The table of these properties. None where two have the same name, or where they are more than a
/// client may say.
pub(crate) fn table_of(
    alloc: Global,
    properties: &PropertyList,
) -> Result<Option<PropertyTable>, NoMemory>
    ensures some { IfOk result (λ found.
        IfSome found (λ table. (table ≡ properties.now) × IsTable properties.now)) }
    ensures none { IfOk result (λ found. IfNone found (¬ (IsTable properties.now))) }
{
    let items = properties.as_slice();
    if items.len() > NAME_LIMIT {
        return Ok(None);
    }
    if !are_names_distinct(items) {
        return Ok(None);
    }
    let mut table = PropertyTable::new(alloc)?;
    match table.set(properties) {
        Ok(()) => Ok(Some(table)),
        Err(SetRefusal::TableFull) => Ok(None),
        Err(SetRefusal::NoMemory) => Err(NoMemory),
    }
}
