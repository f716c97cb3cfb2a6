ghost use Rattle.std.specs.Prelude.{◌≡◌, ◌<◌, ◌≤◌, IfNone, IfSome, IfOk, option_map};
ghost use Rattle.ice_values.specs.Walks.{Views, Shows, view_len};
ghost use Rattle.ice_values.specs.declared.property.Property.{Property as AnyProperty};

use crate::array8::{array8_size, cut_array8};
use crate::lengths::{BODY_LIMIT, within_limit};
use crate::spelled::{Spelled, cut_front};
use crate::{Array8List, Endian, Property};
use owned_lists::{NoMemory, Octets};
use std::alloc::Global;

/// A property where it lies. It doesn't know the order of numbers in which its values are spelled: the walk
/// that gave it does.
#[derive(Clone, Copy, Debug)]
pub struct PropertyView<'a> {
    pub name: &'a [u8],
    pub kind: &'a [u8],
    /// The spelling of the values, which are a LISTofARRAY8.
    pub values: &'a [u8],
}

impl<'a> PropertyView<'a> {
    /// How many bytes spell the property. None where there are more than 65,536. This takes no memory.
    pub fn size(&self) -> Option<usize>
        ensures none { IfNone result (65536 < view_len self.now) }
        ensures some { IfSome result (λ n. (n ≡ view_len self.now) × (n ≤ 65536)) }
    {
        let name = array8_size(self.name)?;
        let kind = array8_size(self.kind)?;
        let front = within_limit(name + kind)?;
        if self.values.len() > BODY_LIMIT {
            return None;
        }
        let total = within_limit(front + self.values.len())?;
        Some(total)
    }

    /// A copy of the property, in the order of numbers in which its values are spelled.
    pub fn to_property(&self, alloc: Global, endian: Endian) -> Result<Property, NoMemory>
        requires { (p : AnyProperty) × Views endian self.now p }
        ensures { IfOk result (λ property. Views endian self.now property) }
    {
        match Array8List::take(alloc, endian, self.values) {
            Ok((values, _)) => Ok(Property {
                name: Octets::from_slice(alloc, self.name)?,
                kind: Octets::from_slice(alloc, self.kind)?,
                values,
            }),
            // The values are spelled there, so memory was wanting.
            Err(_) => Err(NoMemory),
        }
    }
}

/// The property at the front where it lies, and what follows it. None where there is none.
pub fn cut_property(endian: Endian, bytes: &[u8]) -> Option<(PropertyView<'_>, &[u8])>
    ensures { Shows endian bytes.now (option_map (λ x. (x.0, x.1.now)) result) }
{
    let (name, rest) = cut_array8(endian, bytes)?;
    let (kind, rest) = cut_array8(endian, rest)?;
    let (values, rest) = cut_front::<Array8List>(endian, rest)?;
    Some((PropertyView { name, kind, values }, rest))
}
