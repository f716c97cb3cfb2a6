ghost use Rattle.std.specs.Prelude.{◌≡◌, ◌≤◌, [], ◌∷◌, length, IfOk, OnOk, OnErr, IsTrue, ◌↔◌, option_copied};
ghost use Rattle.xsmp_properties.specs.Named.{left_of};
ghost use Rattle.xsmp_properties.specs.Tables.{set_all, without_names, find_property, WouldBeFull, AreNamesDistinct};

use crate::limits::NAME_LIMIT;
use crate::named::NamedProperties;
use crate::shown::Shown;
use ice_values::{Array8, Property, PropertyWalk};
use owned_lists::{Duplicate, NoMemory};
use std::alloc::Global;
use std::marker::Model;
use std::rc::Rc;

/// Properties of different names, as many as a client may say. Copies share the map, so what is
/// deleted is hidden in one of them, by the bit of its place, and what is set is set in a map of
/// its own where there are others that share it.
#[derive(Drop)]
pub(crate) struct SharedProperties {
    named: Rc<NamedProperties>,
    hidden: u128,
}

impl Model for SharedProperties {
    ghost use Rattle.std.specs.Prelude.{List, ◌≤◌, length};
    ghost use Rattle.std.specs.Rc.{rc_value};
    ghost use Rattle.ice_values.specs.declared.property.Property.{Property};
    ghost use Rattle.xsmp_properties.specs.Named.{shown_from};
    ghost use Rattle.xsmp_properties.specs.Tables.{AreNamesDistinct};

    ghost Value = { List Property };

    ghost view = { λ shared. shown_from shared.hidden 0 (rc_value shared.named) };

    ghost invariant = { λ shared. (length (rc_value shared.named) ≤ 128) × AreNamesDistinct (rc_value shared.named) };
}

impl SharedProperties {
    /// These properties, which no other table has.
    pub fn new(named: NamedProperties) -> Result<SharedProperties, NoMemory>
        requires { length named ≤ 128 }
        ensures { IfOk result (λ shared. shared ≡ named) }
    {
        let _len = named.len();
        let alloc = named.allocator();
        let named = Rc::new(alloc, named)?;
        Ok(SharedProperties { named, hidden: 0 })
    }

    pub fn allocator(&self) -> Global {
        self.named.as_ref().allocator()
    }

    /// The properties, one after another.
    pub fn shown(&self) -> Shown<'_>
        ensures shown { left_of result ≡ self.now }
        ensures names { AreNamesDistinct self.now }
    {
        Shown::new(self.named.as_ref().as_slice(), self.hidden)
    }

    /// A map of its own of the same properties.
    pub fn to_named(&self) -> Result<NamedProperties, NoMemory>
        ensures { IfOk result (λ named. named ≡ self.now) }
    {
        let mut named = NamedProperties::with_capacity(
            self.allocator(),
            self.named.as_ref().len(),
        )?;
        let mut left = self.shown();
        while let Some(shared) = left.next() {
            named.put_shared(shared.clone()?)?;
        }
        Ok(named)
    }

    /// Sets others in turn: in the map itself, where no other table shares it and nothing is hidden,
    /// and else in one of its own. A refused call changes nothing.
    pub fn put_named(&mut self, others: NamedProperties) -> Result<(), NoMemory>
        requires { length (set_all self.old others) ≤ 128 }
        ensures ok { OnOk result (self.new ≡ set_all self.old others) }
        ensures err { OnErr result (self.new ≡ self.old) }
    {
        if self.hidden == 0 {
            if let Some(named) = Rc::get_mut(&mut self.named) {
                named.put_named(others)?;
                let _len = named.len();
                return Ok(());
            }
        }
        let mut named = self.to_named()?;
        named.put_named(others)?;
        *self = SharedProperties::new(named)?;
        Ok(())
    }

    /// Hides the property of this name, if there is one.
    fn hide(&mut self, name: &[u8])
        ensures { self.new ≡ without_names (name.now ∷ []) self.old }
    {
        let place = self.named.as_ref().place(name);
        if place < self.named.as_ref().len() {
            self.hidden |= 1 << place;
        }
    }

    /// Takes the property of this name out, if there is one: from the map itself, where no other
    /// table shares it and nothing is hidden.
    fn remove(&mut self, name: &[u8])
        ensures { self.new ≡ without_names (name.now ∷ []) self.old }
    {
        if self.hidden == 0 {
            if let Some(named) = Rc::get_mut(&mut self.named) {
                named.remove(name);
                let _len = named.len();
                return;
            }
        }
        self.hide(name);
    }

    /// Takes the properties of these names out.
    pub fn remove_all(&mut self, names: &[Array8])
        ensures { self.new ≡ without_names names.now self.old }
    {
        for name in names {
            self.remove(name.as_slice());
        }
    }

    /// The property of this name.
    pub fn get(&self, name: &[u8]) -> Option<&Property>
        ensures { option_copied result ≡ find_property name.now self.now }
    {
        let named = self.named.as_ref();
        let place = named.place(name);
        if place >= named.len() {
            return None;
        }
        if (self.hidden >> place) % 2 == 1 {
            return None;
        }
        Some(named.as_slice()[place].as_ref())
    }

    /// Whether they would be more than a client may say once all properties of a list were set.
    /// This takes no memory.
    pub fn would_be_full(&self, walk: PropertyWalk<'_>) -> bool
        ensures { IsTrue result ↔ WouldBeFull self.now walk.entry }
    {
        let Some(mut sizes) = self.shown().sizes() else {
            return true;
        };
        if !sizes.set_walk(walk) {
            return true;
        }
        sizes.is_over()
    }
}

impl Duplicate for SharedProperties {
    fn copy(&self) -> Result<SharedProperties, NoMemory> {
        Ok(SharedProperties {
            named: self.named.clone()?,
            hidden: self.hidden,
        })
    }
}
