ghost use Rattle.std.specs.Prelude.{◌≡◌, ◌≤◌, ◌↔◌, [], Err, IfOk, OnOk, OnErr, IsTrue, option_copied};
ghost use Rattle.std.specs.Cmp.Lexicographic.{pointwise};
ghost use Rattle.ice_values.specs.Walks.{walk_left};
ghost use Rattle.xsmp_properties.specs.Tables.{set_all, without_names, find_property, encoded_len, equal_property as are_equal, IsTableFull, WouldBeFull, AreNamesDistinct};
ghost use Rattle.xsmp_properties.specs.declared.refusals.SetRefusal.TheVariants.{TableFull};

use crate::SetRefusal;
use crate::named::NamedProperties;
use crate::shared::SharedProperties;
use ice_values::{Array8List, Property, PropertyList, PropertyWalk};
use owned_lists::{Duplicate, NoMemory};
use std::alloc::Global;
use std::marker::Model;

/// What a client says of itself (XSMP, chapter 11): at most 128 properties of different names, in
/// the order in which each name was first set, which at most 16,384 bytes spell.
#[derive(Drop)]
pub struct PropertyTable {
    shared: SharedProperties,
}

impl Model for PropertyTable {
    ghost use Rattle.std.specs.Prelude.{List};
    ghost use Rattle.ice_values.specs.declared.property.Property.{Property};
    ghost use Rattle.xsmp_properties.specs.Tables.{IsTableFull};

    ghost Value = { List Property };

    ghost view = { λ table. table.shared };

    ghost invariant = { λ table. ¬ (IsTableFull table.shared) };
}

impl PropertyTable {
    /// No properties.
    pub fn new(alloc: Global) -> Result<PropertyTable, NoMemory>
        ensures { IfOk result (λ table. table ≡ []) }
    {
        Ok(PropertyTable {
            shared: SharedProperties::new(NamedProperties::new(alloc))?,
        })
    }

    /// Sets copies of all these properties in turn (XSMP, chapter 7: SetProperties). A property
    /// takes the place of the one of its name, and a new name goes last. The table is full where
    /// the table after all of them would pass a limit. A refused call changes nothing.
    pub fn set(&mut self, list: &PropertyList) -> Result<(), SetRefusal>
        ensures ok { OnOk result (self.new ≡ set_all self.old list.now) }
        ensures fits { OnOk result (¬ (IsTableFull (set_all self.old list.now))) }
        ensures full { result ≡ Err TableFull → IsTableFull (set_all self.old list.now) }
        ensures err { OnErr result (self.new ≡ self.old) }
    {
        let mut named = self.shared.to_named()?;
        named.put_all(list.as_slice())?;
        if named.is_full() {
            return Err(SetRefusal::TableFull);
        }
        self.shared = SharedProperties::new(named)?;
        Ok(())
    }

    /// Whether the table would pass a limit once all properties of a list were set. This takes no
    /// memory.
    pub fn would_be_full(&self, walk: PropertyWalk<'_>) -> bool
        ensures { IsTrue result ↔ WouldBeFull self.now walk.entry }
    {
        self.shared.would_be_full(walk)
    }

    /// Sets copies of all properties of a list where it lies, as `set` does. That the table is full
    /// is told before any memory is taken. A refused call changes nothing.
    pub fn set_view(&mut self, walk: PropertyWalk<'_>) -> Result<(), SetRefusal>
        ensures ok { OnOk result (self.new ≡ set_all self.old (walk_left walk.entry)) }
        ensures full { (result ≡ Err TableFull) ↔ WouldBeFull self.old walk.entry }
        ensures err { OnErr result (self.new ≡ self.old) }
    {
        if self.shared.would_be_full(walk) {
            return Err(SetRefusal::TableFull);
        }
        let mut named = NamedProperties::new(self.shared.allocator());
        named.put_walk(walk)?;
        self.shared.put_named(named)?;
        Ok(())
    }

    /// Takes out the properties of these names, as far as there are any (XSMP, chapter 7:
    /// DeleteProperties). This takes no memory.
    pub fn delete(&mut self, names: &Array8List)
        ensures { self.new ≡ without_names names.now self.old }
    {
        self.shared.remove_all(names.as_slice());
    }

    /// The property of this name. This takes no memory.
    pub fn get(&self, name: &[u8]) -> Option<&Property>
        ensures { option_copied result ≡ find_property name.now self.now }
    {
        self.shared.get(name)
    }

    /// Copies of all properties, in order.
    pub fn list(&self) -> Result<PropertyList, NoMemory>
        ensures list { IfOk result (λ list. list ≡ self.now) }
        ensures names { AreNamesDistinct self.now }
        ensures limits { ¬ (IsTableFull self.now) }
    {
        self.shared.shown().list(self.shared.allocator())
    }

    /// How many bytes spell the properties. This takes no memory.
    pub fn encoded_len(&self) -> usize
        ensures is { result ≡ encoded_len self.now }
        ensures bound { result ≤ 16384 }
    {
        let Some(count) = self.shared.shown().encoded_len() else {
            unreachable!()
        };
        count
    }

    /// Whether both tables hold equal properties in the same order. This takes no memory.
    pub fn is_same(&self, other: &PropertyTable) -> bool
        ensures { result ≡ pointwise are_equal self.now other.now }
    {
        self.shared.shown().is_same(other.shared.shown())
    }
}

impl Duplicate for PropertyTable {
    fn copy(&self) -> Result<PropertyTable, NoMemory> {
        Ok(PropertyTable {
            shared: self.shared.copy()?,
        })
    }
}
