ghost use Rattle.std.specs.Prelude.{◌≡◌, IfOk, OnOk};
ghost use Rattle.ice_values.specs.Walks.{walk_left};
ghost use Rattle.xsmp_properties.specs.Tables.{set_all};
ghost use Rattle.session_model.specs.Tables as of;

use ice_values::{PropertyList, PropertyWalk};
use owned_lists::NoMemory;
use xsmp_properties::{PropertyTable, SetRefusal};

/// Sets copies of these properties in turn. Where not all of them fit, the table stays as it is.
pub(crate) fn set_if_fits(table: &mut PropertyTable, list: &PropertyList) -> Result<(), NoMemory>
    ensures { OnOk result (table.new ≡ of.set_table list.now table.old) }
{
    match table.set(list) {
        Ok(()) => Ok(()),
        Err(SetRefusal::TableFull) => Ok(()),
        Err(SetRefusal::NoMemory) => Err(NoMemory),
    }
}

/// Whether not all of these properties fit into a table, which isn't used any more.
pub(crate) fn would_be_full(table: PropertyTable, list: &PropertyList) -> Result<bool, NoMemory>
    ensures { IfOk result (λ full. full ≡ of.is_full (set_all table list.now)) }
{
    let mut table = table;
    match table.set(list) {
        Ok(()) => Ok(false),
        Err(SetRefusal::TableFull) => Ok(true),
        Err(SetRefusal::NoMemory) => Err(NoMemory),
    }
}

/// Sets copies of the properties of a list in turn, where it lies. Where not all of them fit, the
/// table stays as it is.
pub(crate) fn set_walk_if_fits(
    table: &mut PropertyTable,
    walk: PropertyWalk<'_>,
) -> Result<(), NoMemory>
    ensures { OnOk result (table.new ≡ of.set_table (walk_left walk.entry) table.old) }
{
    match table.set_view(walk) {
        Ok(()) => Ok(()),
        Err(SetRefusal::TableFull) => Ok(()),
        Err(SetRefusal::NoMemory) => Err(NoMemory),
    }
}

/// Whether not all properties of a list fit into a table. This takes no memory.
pub(crate) fn is_over_by(table: &PropertyTable, walk: PropertyWalk<'_>) -> bool
    ensures { result ≡ of.is_full (set_all table.now (walk_left walk.entry)) }
{
    table.would_be_full(walk)
}
