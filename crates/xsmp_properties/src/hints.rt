ghost use Rattle.std.specs.Prelude.{◌≡◌};
ghost use Rattle.xsmp_properties.specs.Readers.{hint_in, hint_of as hint_of_items};

use crate::PropertyTable;
use crate::texts::values_of;
use ice_values::Array8;

/// When a client is to be started again (XSMP, chapter 11: RestartStyleHint).
#[derive(Clone, Copy, Debug, PartialEq, Eq)]
pub enum Hint {
    /// At the next session where it runs at the end of this one.
    IfRunning,
    /// At the next session even where it has ended before.
    Anyway,
    /// As soon as it ends.
    Immediately,
    Never,
}

fn hint_in(values: &[Array8]) -> Hint
    ensures { result ≡ hint_in values.now }
{
    let [value] = values else {
        return Hint::IfRunning;
    };
    match value.as_slice() {
        [1] => Hint::Anyway,
        [2] => Hint::Immediately,
        [3] => Hint::Never,
        _ => Hint::IfRunning,
    }
}

/// The value of RestartStyleHint, which is one byte from 0 to 3 of kind `CARD8`. Where there is no
/// such property it is IfRunning. This takes no memory.
pub fn hint_of(table: &PropertyTable) -> Hint
    ensures { result ≡ hint_of_items table.now }
{
    match values_of(table, b"RestartStyleHint", b"CARD8") {
        Some(values) => hint_in(values),
        None => Hint::IfRunning,
    }
}
