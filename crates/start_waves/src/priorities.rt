ghost use Rattle.std.specs.Prelude.{◌≡◌};
ghost use Rattle.start_waves.specs.Priorities.{priority_in, priority_of as priority_of_items};

use ice_values::Array8;
use xsmp_properties::{PropertyTable, same_bytes};

/// The priority of a program that says none.
const MIDDLE: u8 = 50;

fn priority_in(values: &[Array8]) -> u8
    ensures { result ≡ priority_in values.now }
{
    let [value] = values else {
        return MIDDLE;
    };
    match value.as_slice() {
        [priority] => *priority,
        _ => MIDDLE,
    }
}

/// How early a program is to be started at a login, by its property `_GSM_Priority`, which is one byte
/// of kind `CARD8`: lower is earlier. Window managers say 20. Where there is no such property it is 50.
/// This takes no memory.
pub fn priority_of(table: &PropertyTable) -> u8
    ensures { result ≡ priority_of_items table.now }
{
    let Some(property) = table.get(b"_GSM_Priority") else {
        return MIDDLE;
    };
    if same_bytes(b"CARD8", property.kind.as_slice()) {
        priority_in(property.values.as_slice())
    } else {
        MIDDLE
    }
}
