ghost use Rattle.std.specs.Prelude.{◌≡◌, IfSome};
ghost use Rattle.std.specs.Iterator.{item_count};
ghost use Rattle.ice_values.specs.Properties.{property_list, property_list_at, IsListed, IsProperty};
ghost use Rattle.ice_values.specs.Reading.{Finds, ReadsFront};
ghost use Rattle.ice_values.specs.Walks.{GivesProperty, WalkedAt, walk_left, walked};

use crate::fronts::{cut_card32, pass_bytes};
use crate::spelled::pass_many;
use crate::view::cut_property;
use crate::{Endian, Property, PropertyView, Short};

/// The properties of a list, one after the other, where they lie. It can be copied, and so walked again.
#[derive(Clone, Copy, Debug)]
pub struct PropertyWalk<'a> {
    endian: Endian,
    count: u32,
    bytes: &'a [u8],
}

impl<'a> PropertyWalk<'a> {
    /// The order of numbers in which the properties are spelled.
    pub fn endian(&self) -> Endian
        ensures { result ≡ self.now.endian }
    {
        self.endian
    }
}

impl<'a> Iterator for PropertyWalk<'a> {
    type Item = PropertyView<'a>;

    ghost next_gives = { GivesProperty };

    ghost remaining = { item_count walk_left };

    /// The next property. This takes no memory.
    fn next(&mut self) -> Option<PropertyView<'a>> {
        if self.count == 0 {
            return None;
        }
        let (view, rest) = cut_property(self.endian, self.bytes)?;
        self.count -= 1;
        self.bytes = rest;
        Some(view)
    }
}

/// A walk over the list at the front, and what follows the list. None where there is none.
#[tactic(auto, unfolding(crate::specs::Properties::listed_at))]
fn cut_walk(endian: Endian, bytes: &[u8]) -> Option<(PropertyWalk<'_>, &[u8])>
    ensures exact { Finds (λ x. (walk_left x.0, x.1.now)) result
        (property_list_at endian bytes.now) }
    ensures order { IfSome result (λ x. x.0.endian ≡ endian) }
{
    let (count, rest) = cut_card32(endian, bytes)?;
    let items = pass_bytes(4, rest)?;
    let rest = pass_many::<Property>(endian, count, items)?;
    let walk = PropertyWalk {
        endian,
        count,
        bytes: items,
    };
    Some((walk, rest))
}

/// A walk over the LISTofPROPERTY that is spelled at the front, and how many bytes the list took. This takes no
/// memory.
pub fn walk_properties(endian: Endian, bytes: &[u8]) -> Result<(PropertyWalk<'_>, usize), Short>
    ensures front { ReadsFront (property_list endian) (IsListed IsProperty) bytes.now
        (walked result) }
    ensures exact { WalkedAt endian bytes.now result }
{
    match cut_walk(endian, bytes) {
        Some((walk, rest)) => Ok((walk, bytes.len() - rest.len())),
        None => Err(Short),
    }
}
