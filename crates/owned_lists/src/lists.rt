ghost use Rattle.std.specs.Prelude.{◌≡◌, List, [], ◌∷◌, ◌++◌, IfOk, OnOk, OnErr};

use crate::{Command, NoMemory, Octets};
use std::alloc::Global;
use std::marker::Model;

/// A value of which there can be a second one where memory allows it.
pub trait Duplicate: Sized {
    /// An equal value in memory of its own.
    fn copy(&self) -> Result<Self, NoMemory>
        ensures { IfOk result (λ twin. twin ≡ self.now) };
}

/// A list that grows at its end.
#[derive(Debug, Drop)]
pub struct ListOf<T: Drop> {
    items: Vec<T>,
}

pub type OctetsList = ListOf<Octets>;

pub type PairList = ListOf<(Octets, Octets)>;

pub type CommandList = ListOf<Command>;

pub type NumberList = ListOf<u64>;

impl<T: Drop> Model for ListOf<T> {
    ghost Value = { List T };

    ghost view = { λ list. list.items.items };
}

impl<T: Drop> ListOf<T> {
    /// No items; this takes no memory.
    pub fn new(alloc: Global) -> ListOf<T>
        ensures { result ≡ [] }
    {
        ListOf {
            items: Vec::new(alloc),
        }
    }

    /// The same items in the same memory.
    pub fn from_vec(items: Vec<T>) -> ListOf<T>
        ensures { result ≡ items.items }
    {
        ListOf { items }
    }

    /// Gives the items back in their memory.
    pub fn into_vec(self) -> Vec<T>
        ensures { result.items ≡ self }
    {
        let ListOf { items } = self;
        items
    }

    /// Adds an item at the end. A refused push drops the item.
    pub fn push(&mut self, item: T) -> Result<(), NoMemory>
        ensures ok { OnOk result (self.new ≡ self.old ++ item ∷ []) }
        ensures err { OnErr result (self.new ≡ self.old) }
    {
        self.items.push(item)?;
        Ok(())
    }

    pub fn as_slice(&self) -> &[T]
        ensures { result.now ≡ self.now }
    {
        self.items.as_slice()
    }
}

impl<T: Duplicate + Drop> Duplicate for ListOf<T> {
    fn copy(&self) -> Result<ListOf<T>, NoMemory> {
        let mut twin = ListOf::new(*self.items.allocator());
        for item in self.as_slice() {
            twin.push(item.copy()?)?;
        }
        Ok(twin)
    }
}

impl Duplicate for u32 {
    fn copy(&self) -> Result<u32, NoMemory> {
        Ok(*self)
    }
}

impl Duplicate for u64 {
    fn copy(&self) -> Result<u64, NoMemory> {
        Ok(*self)
    }
}

impl Duplicate for (Octets, Octets) {
    fn copy(&self) -> Result<(Octets, Octets), NoMemory> {
        Ok((self.0.copy()?, self.1.copy()?))
    }
}
