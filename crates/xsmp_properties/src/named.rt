ghost use Rattle.std.specs.Prelude.{◌≡◌, ◌<◌, ◌≤◌, [], length, map, Err, OnOk, OnErr, IfNone, IfSome, IfOk, ◌∷◌, IsTrue, ◌↔◌};
ghost use Rattle.ice_values.specs.Walks.{walk_left};
ghost use Rattle.std.specs.Rc.{rc_value};
ghost use Rattle.xsmp_properties.specs.Named.{left_of, place_among};
ghost use Rattle.xsmp_properties.specs.declared.refusals.SetRefusal.TheVariants.{TableFull};
ghost use Rattle.xsmp_properties.specs.Tables.{set_one, set_all, without_names, encoded_len, IsTableFull, AreNamesDistinct};

use crate::SetRefusal;
use crate::limits::NAME_LIMIT;
use crate::shown::Shown;
use crate::texts::same_bytes;
use ice_values::{Property, PropertyWalk};
use indexmap::IndexMap;
use owned_lists::{Duplicate, NoMemory};
use std::alloc::Global;
use std::marker::Model;
use std::rc::Rc;

/// So many names are compared one by one, which costs less than to hash the one that is sought.
const FEW: usize = 8;

/// The first place of a name, or how many there are.
fn place_in(held: &[Rc<Property>], name: &[u8]) -> usize
    ensures { result ≡ place_among name.now (map rc_value held.now) }
{
    for (index, shared) in held.iter().enumerate() {
        if same_bytes(name, shared.as_ref().name.as_slice()) {
            return index;
        }
    }
    held.len()
}

/// Properties of different names, in the order in which each name was first set, without a limit.
/// Each stands behind a counted reference of its own, so that a map that is made anew copies none.
#[derive(Drop)]
pub(crate) struct NamedProperties {
    held: IndexMap<Vec<u8>, Rc<Property>>,
}

impl Model for NamedProperties {
    ghost use Rattle.std.specs.Prelude.{List, map};
    ghost use Rattle.std.specs.Rc.{rc_value};
    ghost use Rattle.indexmap.specs.IndexMap.{values};
    ghost use Rattle.ice_values.specs.declared.property.Property.{Property};
    ghost use Rattle.xsmp_properties.specs.Named.{AreNamed};

    ghost Value = { List Property };

    ghost view = { λ named. map rc_value (values named.held) };

    ghost invariant = { λ named. AreNamed rc_value named.held.entries };
}

impl NamedProperties {
    /// No properties; this takes no memory.
    pub fn new(alloc: Global) -> NamedProperties
        ensures { result ≡ [] }
    {
        NamedProperties {
            held: IndexMap::new(alloc),
        }
    }

    /// No properties, with room for so many.
    pub fn with_capacity(alloc: Global, room: usize) -> Result<NamedProperties, NoMemory>
        ensures { IfOk result (λ named. named ≡ []) }
    {
        Ok(NamedProperties {
            held: IndexMap::with_capacity(alloc, room)?,
        })
    }

    pub fn allocator(&self) -> Global {
        *self.held.allocator()
    }

    pub fn len(&self) -> usize
        ensures len { result ≡ length self.now }
        ensures names { AreNamesDistinct self.now }
    {
        self.held.len()
    }

    /// All properties, in order.
    pub fn as_slice(&self) -> &[Rc<Property>]
        ensures { map rc_value result.now ≡ self.now }
    {
        self.held.values().as_slice()
    }

    /// The place of a name, or how many there are.
    pub fn place(&self, name: &[u8]) -> usize
        ensures { result ≡ place_among name.now self.now }
    {
        if self.held.len() <= FEW {
            return place_in(self.as_slice(), name);
        }
        match self.held.get_index_of(name) {
            Some(place) => place,
            None => self.held.len(),
        }
    }

    /// Sets a property, in the place of the one of its name.
    pub fn put_shared(&mut self, shared: Rc<Property>) -> Result<(), NoMemory>
        ensures { OnOk result (self.new ≡ set_one self.old (rc_value shared)) }
    {
        let name = Vec::from_slice(*self.held.allocator(), shared.as_ref().name.as_slice())?;
        self.held.insert(name, shared)?;
        Ok(())
    }

    /// Sets a property, in the place of the one of its name.
    pub fn put(&mut self, property: Property) -> Result<(), NoMemory>
        ensures { OnOk result (self.new ≡ set_one self.old property) }
    {
        let shared = Rc::new(self.allocator(), property)?;
        self.put_shared(shared)
    }

    /// Sets copies of these properties in turn. The table is full as soon as there are more names
    /// than a client may say, whatever follows in the list.
    pub fn put_all(&mut self, list: &[Property]) -> Result<(), SetRefusal>
        ensures ok { OnOk result (self.new ≡ set_all self.old list.now) }
        ensures full { result ≡ Err TableFull → 128 < length (set_all self.old list.now) }
    {
        for property in list {
            self.put(property.copy()?)?;
            if self.len() > NAME_LIMIT {
                return Err(SetRefusal::TableFull);
            }
        }
        Ok(())
    }

    /// Sets copies of all properties of a list in turn.
    pub fn put_walk(&mut self, walk: PropertyWalk<'_>) -> Result<(), NoMemory>
        ensures { OnOk result (self.new ≡ set_all self.old (walk_left walk.entry)) }
    {
        let alloc = self.allocator();
        let endian = walk.endian();
        let mut left = walk;
        while let Some(view) = left.next() {
            self.put(view.to_property(alloc, endian)?)?;
        }
        Ok(())
    }

    /// Sets others in turn. A refused call changes nothing.
    pub fn put_named(&mut self, others: NamedProperties) -> Result<(), NoMemory>
        ensures ok { OnOk result (self.new ≡ set_all self.old others) }
        ensures err { OnErr result (self.new ≡ self.old) }
    {
        let mut others = others;
        self.held.append(&mut others.held)?;
        let _len = self.held.len();
        Ok(())
    }

    /// The properties, one after another.
    #[tactic(auto, using(crate::proofs::ShownLaws::none_hidden))]
    pub fn shown(&self) -> Shown<'_>
        ensures { left_of result ≡ self.now }
    {
        Shown::new(self.as_slice(), 0)
    }

    /// How many bytes spell the properties. None where there are more than a client may say.
    fn encoded_len(&self) -> Option<usize>
        ensures none { IfNone result (16384 < encoded_len self.now) }
        ensures some { IfSome result (λ n. (n ≡ encoded_len self.now) × (n ≤ 16384)) }
    {
        self.shown().encoded_len()
    }

    /// Takes the property of this name out, if there is one.
    pub fn remove(&mut self, name: &[u8])
        ensures { self.new ≡ without_names (name.now ∷ []) self.old }
    {
        drop(self.held.shift_remove(name));
    }

    /// Whether these are more than a client may say.
    pub fn is_full(&self) -> bool
        ensures { IsTrue result ↔ IsTableFull self.now }
    {
        self.len() > NAME_LIMIT || self.encoded_len().is_none()
    }
}
