ghost use Rattle.std.specs.Prelude.{◌≡◌, ◌<◌, ◌≤◌, [], length, map, IsTrue, IsFalse, nat_lt};
ghost use Rattle.ice_values.specs.Properties.{property as property_cells};
ghost use Rattle.ice_values.specs.Walks.{view_len};
ghost use Rattle.ice_values.specs.declared.numbers.Endian.TheVariants.{Lsb};
ghost use Rattle.xsmp_properties.specs.Sizes.{limited, place_of, shown, sizes_of, total_of, with_size, with_walk};

use crate::limits::{BYTE_LIMIT, NAME_LIMIT};
use crate::texts::same_bytes;
use arrayvec::ArrayVec;
use ice_values::{Property, PropertyView, PropertyWalk, Spelled};

/// One more byte than a client may say.
const TOO_LONG: u16 = 16_385;

/// A name of a table, and how many bytes spell its property, as far as a client may say as many.
#[derive(Clone, Copy, Debug, Default)]
pub(crate) struct Size<'a> {
    name: &'a [u8],
    length: u16,
}

/// What a table would take that isn't made, on the stack: its names and lengths.
#[derive(Drop)]
pub(crate) struct TableSizes<'a> {
    held: ArrayVec<Size<'a>, 128>,
}

/// As many bytes, or one more than a client may say.
fn limited(count: usize) -> u16
    ensures { result ≡ limited count }
{
    if count <= BYTE_LIMIT {
        count as u16
    } else {
        TOO_LONG
    }
}

fn view_size(view: &PropertyView<'_>) -> u16
    ensures { result ≡ limited (view_len view.now) }
{
    match view.size() {
        Some(count) => limited(count),
        None => TOO_LONG,
    }
}

/// How many bytes spell a property, as far as a client may say as many.
pub(crate) fn property_size(property: &Property) -> u16
    ensures { result ≡ limited (length (property_cells Lsb property.now)) }
{
    match property.size() {
        Some(count) => limited(count),
        None => TOO_LONG,
    }
}

/// The first place of a name, or how many there are.
fn place(held: &[Size<'_>], name: &[u8]) -> usize
    ensures { result ≡ place_of name.now (map shown held.now) }
{
    for (index, size) in held.iter().enumerate() {
        if same_bytes(name, size.name) {
            return index;
        }
    }
    held.len()
}

impl<'a> TableSizes<'a> {
    /// Those of no properties.
    pub fn new() -> TableSizes<'a>
        ensures { sizes_of result ≡ [] }
    {
        TableSizes {
            held: ArrayVec::new(),
        }
    }

    /// Sets the length of a name. False where there would be more names than a client may say.
    pub fn set(&mut self, name: &'a [u8], size: u16) -> bool
        ensures room { IsTrue result → sizes_of self.new ≡ with_size self.old name.now size }
        ensures full { IsFalse result → 128 < length (with_size self.old name.now size) }
    {
        let place = place(self.held.as_slice(), name);
        if place < self.held.len() {
            self.held[place] = Size { name, length: size };
            return true;
        }
        if self.held.len() == NAME_LIMIT {
            return false;
        }
        self.held.push(Size { name, length: size });
        true
    }

    /// Sets the lengths of all properties of a list in turn. False where there would be more names
    /// than a client may say.
    pub fn set_walk(&mut self, walk: PropertyWalk<'a>) -> bool
        ensures room { IsTrue result → sizes_of self.new ≡ with_walk self.old walk.entry }
        ensures full { IsFalse result → 128 < length (with_walk self.old walk.entry) }
    {
        let mut left = walk;
        while let Some(view) = left.next() {
            if !self.set(view.name, view_size(&view)) {
                return false;
            }
        }
        true
    }

    /// Whether more bytes spell the properties than a client may say.
    pub fn is_over(&self) -> bool
        ensures is { result ≡ nat_lt 16384 (total_of (sizes_of self.now)) }
        ensures names { length (sizes_of self.now) ≤ 128 }
    {
        let mut total: usize = 0;
        for size in self.held.as_slice() {
            total += size.length as usize;
        }
        total > BYTE_LIMIT
    }
}
