ghost use Rattle.std.specs.Prelude.{◌≡◌, ◌<◌, ◌≤◌, [], ◌∷◌, length, map, IfOk, IfNone, IfSome};
ghost use Rattle.std.specs.Cmp.Lexicographic.{pointwise};
ghost use Rattle.std.specs.Rc.{rc_value};
ghost use Rattle.xsmp_properties.specs.Named.{left_of, shown_from};
ghost use Rattle.xsmp_properties.specs.Sizes.{sized, sizes_of};
ghost use Rattle.xsmp_properties.specs.Tables.{encoded_len, equal_property as are_equal, AreNamesDistinct};

use crate::limits::BYTE_LIMIT;
use crate::sizes::{TableSizes, property_size};
use crate::texts::{same_bytes, same_texts};
use ice_values::{Property, PropertyList, Spelled};
use owned_lists::{Duplicate, NoMemory};
use std::alloc::Global;
use std::rc::Rc;

/// Whether two properties are equal in all that they hold.
fn equal_property(first: &Property, second: &Property) -> bool
    ensures { result ≡ are_equal first.now second.now }
{
    same_bytes(first.name.as_slice(), second.name.as_slice())
        && same_bytes(first.kind.as_slice(), second.kind.as_slice())
        && same_texts(first.values.as_slice(), second.values.as_slice())
}

/// The properties that a table shows, one after another: the lowest bit hides the next one.
#[derive(Clone, Copy)]
pub(crate) struct Shown<'a> {
    left: &'a [Rc<Property>],
    hidden: u128,
}

impl<'a> Shown<'a> {
    /// Those of a list whose bits aren't set.
    pub fn new(left: &'a [Rc<Property>], hidden: u128) -> Shown<'a>
        ensures { left_of result ≡ shown_from hidden 0 (map rc_value left.now) }
    {
        Shown { left, hidden }
    }

    /// The next property.
    #[tactic(auto, using(crate::proofs::ShownLaws::first_shown, crate::proofs::ShownLaws::first_hidden))]
    pub fn next(&mut self) -> Option<&'a Rc<Property>>
        ensures some { IfSome result (λ shared. left_of self.old ≡ rc_value shared.now ∷ left_of self.new) }
        ensures none { IfNone result (left_of self.old ≡ []) }
    {
        while let Some((shared, others)) = self.left.split_first() {
            let is_shown = self.hidden % 2 == 0;
            self.left = others;
            self.hidden /= 2;
            if is_shown {
                return Some(shared);
            }
        }
        None
    }

    /// Copies of all properties, in order.
    pub fn list(self, alloc: Global) -> Result<PropertyList, NoMemory>
        ensures { IfOk result (λ list. list ≡ left_of self.entry) }
    {
        let mut left = self;
        let mut list = PropertyList::new(alloc);
        while let Some(shared) = left.next() {
            list.push(shared.as_ref().copy()?)?;
        }
        Ok(list)
    }

    /// How many bytes spell the properties. None where there are more than a client may say.
    pub fn encoded_len(self) -> Option<usize>
        ensures none { IfNone result (16384 < encoded_len (left_of self.entry)) }
        ensures some { IfSome result (λ n. (n ≡ encoded_len (left_of self.entry)) × (n ≤ 16384)) }
    {
        let mut left = self;
        let mut total = 0;
        while let Some(shared) = left.next() {
            total += shared.as_ref().size()?;
            if total > BYTE_LIMIT {
                return None;
            }
        }
        Some(total)
    }

    /// Their names and lengths. None where there are more names than a client may say.
    pub fn sizes(self) -> Option<TableSizes<'a>>
        requires { AreNamesDistinct (left_of self) }
        ensures some { IfSome result (λ sizes. sizes_of sizes ≡ map sized (left_of self.entry)) }
        ensures none { IfNone result (128 < length (left_of self.entry)) }
    {
        let mut left = self;
        let mut sizes = TableSizes::new();
        while let Some(shared) = left.next() {
            let property = shared.as_ref();
            if !sizes.set(property.name.as_slice(), property_size(property)) {
                return None;
            }
        }
        Some(sizes)
    }

    /// Whether both show equal properties in the same order.
    pub fn is_same(self, other: Shown<'_>) -> bool
        ensures { result ≡ pointwise are_equal (left_of self.entry) (left_of other.entry) }
    {
        let mut left = self;
        let mut others = other;
        while let Some(shared) = left.next() {
            let Some(twin) = others.next() else {
                return false;
            };
            if !equal_property(shared.as_ref(), twin.as_ref()) {
                return false;
            }
        }
        others.next().is_none()
    }
}
