ghost use Rattle.std.specs.Prelude.{◌≡◌, IfOk};
ghost use Rattle.client_quirks.specs.Stood.{is_restarted as is_restarted_by, restart_among, restart_in};

use ice_values::PropertyList;
use owned_lists::{Command, NoMemory};
use std::alloc::Global;
use xsmp_properties::{Hint, PropertyTable, SetRefusal, command_of, hint_of};

/// Whether a client that left early is started again: not where nobody is to, nor where the manager does
/// so itself as it goes.
fn is_restarted(hint: Hint) -> bool
    ensures { result ≡ is_restarted_by hint }
{
    match hint {
        Hint::IfRunning => true,
        Hint::Anyway => true,
        Hint::Immediately => false,
        Hint::Never => false,
    }
}

fn restart_of(alloc: Global, table: &PropertyTable) -> Result<Option<Command>, NoMemory>
    ensures { IfOk result (λ command. command ≡ restart_among table.now) }
{
    if is_restarted(hint_of(table)) {
        command_of(alloc, table, b"RestartCommand")
    } else {
        Ok(None)
    }
}

/// The command that starts a client again, by its properties.
pub fn restart_in(alloc: Global, properties: &PropertyList) -> Result<Option<Command>, NoMemory>
    ensures { IfOk result (λ command. command ≡ restart_in properties.now) }
{
    let mut table = PropertyTable::new(alloc)?;
    match table.set(properties) {
        Ok(()) => restart_of(alloc, &table),
        Err(SetRefusal::TableFull) => Ok(None),
        Err(SetRefusal::NoMemory) => Err(NoMemory),
    }
}
