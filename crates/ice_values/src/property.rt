ghost use Rattle.std.specs.Prelude.{◌≡◌, ◌++◌, IfOk, OnOk, OnErr};
ghost use Rattle.ice_values.specs.Cells.{zeros};
ghost use Rattle.ice_values.specs.Properties.{property as property_cells, IsProperty, property_at, property_list, IsListed};
ghost use Rattle.ice_values.specs.Reading.{ReadsFront};
ghost use Rattle.ice_values.specs.Writing.{Extends};

use crate::lengths::within_limit;
use crate::spelled::{Spelled, read_front, write_whole};
use crate::{Array8, Array8List, Endian, ValueRefusal};
use owned_lists::{Duplicate, ListOf, NoMemory, Octets};
use std::alloc::Global;

/// What a client says of itself under a name (XSMP, chapter 10: PROPERTY).
#[derive(Debug, Drop)]
pub struct Property {
    pub name: Array8,
    /// What the values are, such as `ARRAY8`, `LISTofARRAY8` or `CARD8`.
    pub kind: Array8,
    pub values: Array8List,
}

pub type PropertyList = ListOf<Property>;

impl Property {
    /// A property of this name and type, both copied, with these values.
    pub fn from_slices(
        alloc: Global,
        name: &[u8],
        kind: &[u8],
        values: Array8List,
    ) -> Result<Property, NoMemory>
        ensures { IfOk result (λ p.
            p ≡ record { name = name.now; kind = kind.now; values = values }) }
    {
        let name = Array8::from_slice(alloc, name)?;
        let kind = Array8::from_slice(alloc, kind)?;
        Ok(Property { name, kind, values })
    }
}

impl Duplicate for Property {
    fn copy(&self) -> Result<Property, NoMemory> {
        Ok(Property {
            name: self.name.copy()?,
            kind: self.kind.copy()?,
            values: self.values.copy()?,
        })
    }
}

/// A property is spelled by its name, its type and its values.
impl Spelled for Property {
    ghost cells = { property_cells };

    ghost is_spelled = { IsProperty };

    ghost front = { property_at };

    #[tactic(auto, unfolding(crate::specs::Properties::property_at))]
    fn take(
        alloc: Global,
        endian: Endian,
        bytes: &[u8],
    ) -> Result<(Property, &[u8]), ValueRefusal> {
        let (name, rest) = Array8::take(alloc, endian, bytes)?;
        let (kind, rest) = Array8::take(alloc, endian, rest)?;
        let (values, rest) = Array8List::take(alloc, endian, rest)?;
        Ok((Property { name, kind, values }, rest))
    }

    #[tactic(auto, unfolding(crate::specs::Properties::property_at))]
    fn pass(endian: Endian, bytes: &[u8]) -> Option<&[u8]> {
        let rest = Array8::pass(endian, bytes)?;
        let rest = Array8::pass(endian, rest)?;
        Array8List::pass(endian, rest)
    }

    #[tactic(auto, using(crate::proofs::WriteLaws::adds_cells))]
    fn put(&self, endian: Endian, out: &mut Octets) -> Result<(), NoMemory> {
        self.name.put(endian, out)?;
        self.kind.put(endian, out)?;
        self.values.put(endian, out)
    }

    fn size(&self) -> Option<usize> {
        let name = self.name.size()?;
        let kind = self.kind.size()?;
        let values = self.values.size()?;
        within_limit(name + kind + values)
    }
}

/// The property that is spelled at the front, and how many bytes it took.
pub fn read_property(
    alloc: Global,
    endian: Endian,
    bytes: &[u8],
) -> Result<(Property, usize), ValueRefusal>
    ensures { ReadsFront (property_cells endian) IsProperty bytes.now result }
{
    read_front(alloc, endian, bytes)
}

/// Adds the spelling of a property with zeros in unused and padding bytes.
pub fn write_property(endian: Endian, value: &Property, out: &mut Octets) -> Result<(), NoMemory>
    requires { IsProperty value.now }
    ensures ok { OnOk result (out.new ≡ out.old ++ zeros (property_cells endian value.now)) }
    ensures err { OnErr result (out.new ≡ out.old) }
{
    write_whole(endian, value, out)
}

/// The list that is spelled at the front, and how many bytes it took.
pub fn read_property_list(
    alloc: Global,
    endian: Endian,
    bytes: &[u8],
) -> Result<(PropertyList, usize), ValueRefusal>
    ensures { ReadsFront (property_list endian) (IsListed IsProperty) bytes.now result }
{
    read_front(alloc, endian, bytes)
}

/// Adds the spelling of a list with zeros in unused and padding bytes.
pub fn write_property_list(
    endian: Endian,
    items: &PropertyList,
    out: &mut Octets,
) -> Result<(), NoMemory>
    requires { IsListed IsProperty items.now }
    ensures ok { OnOk result (out.new ≡ out.old ++ zeros (property_list endian items.now)) }
    ensures err { OnErr result (out.new ≡ out.old) }
{
    write_whole(endian, items, out)
}
