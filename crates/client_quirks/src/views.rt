ghost use Rattle.std.specs.Prelude.{◌≡◌};
ghost use Rattle.std.specs.List.{list_any};
ghost use Rattle.ice_values.specs.Walks.{Views, walk_left};
ghost use Rattle.ice_values.specs.declared.property.Property.{Property as AnyProperty};
ghost use Rattle.frame_speech.specs.Settings.{values_left};
ghost use Rattle.client_quirks.specs.Meanings.{is_line as is_line_by, is_shorter as is_shorter_by, is_amended as is_amended_by};

use crate::meanings::{is_command, is_shorter};
use frame_speech::ValueWalk;
use ice_values::{Endian, PropertyView, PropertyWalk};

/// Whether the property that a view shows is a command of one line.
fn shows_line(endian: Endian, view: &PropertyView<'_>) -> bool
    ensures { (p : AnyProperty) → Views endian view.now p → result ≡ is_line_by p }
{
    is_command(view.name)
        && view.kind == b"ARRAY8".as_slice()
        && ValueWalk::of(endian, view).count() == 1
}

/// Whether one of these values of a property of this name is meant shorter than it is.
fn has_shorter(name: &[u8], walk: ValueWalk<'_>) -> bool
    ensures { result ≡ list_any (is_shorter_by name.now) (values_left walk.entry) }
{
    let mut left = walk;
    while let Some(value) = left.next() {
        if is_shorter(name, value) {
            return true;
        }
    }
    false
}

/// Whether the property that a view shows is meant otherwise than it is.
fn shows_amended(endian: Endian, view: &PropertyView<'_>) -> bool
    ensures { (p : AnyProperty) → Views endian view.now p → result ≡ is_amended_by p }
{
    shows_line(endian, view) || has_shorter(view.name, ValueWalk::of(endian, view))
}

/// Whether one of these properties is meant otherwise than it is. This takes no memory.
pub fn sets_amended(walk: PropertyWalk<'_>) -> bool
    ensures { result ≡ list_any is_amended_by (walk_left walk.entry) }
{
    let endian = walk.endian();
    let mut left = walk;
    while let Some(view) = left.next() {
        if shows_amended(endian, &view) {
            return true;
        }
    }
    false
}
