ghost use Rattle.std.specs.Prelude.{◌≡◌, IfOk};

use crate::{Entry, EntryList};
use owned_lists::{Duplicate, NoMemory};
use std::alloc::Global;
use std::marker::Model;
use std::rc::Rc;

/// The entries of a book. A copy shares them.
#[derive(Drop)]
pub struct SharedEntries {
    list: Rc<EntryList>,
}

impl Model for SharedEntries {
    ghost use Rattle.std.specs.Prelude.{List};
    ghost use Rattle.std.specs.Rc.{rc_value};
    ghost use Rattle.checkpoint_records.specs.declared.records.Entry.{Entry};

    ghost Value = { List Entry };

    ghost view = { λ shared. rc_value shared.list };
}

impl SharedEntries {
    /// The entries of this list, which nobody shares yet.
    pub fn new(alloc: Global, list: EntryList) -> Result<SharedEntries, NoMemory>
        ensures { IfOk result (λ shared. shared ≡ list) }
    {
        Ok(SharedEntries {
            list: Rc::new(alloc, list)?,
        })
    }

    pub fn as_slice(&self) -> &[Entry]
        ensures { result.now ≡ self.now }
    {
        self.list.as_ref().as_slice()
    }

    /// The list itself where nobody shares it, and else a copy.
    pub fn into_list(self) -> Result<EntryList, NoMemory>
        ensures { IfOk result (λ list. list ≡ self) }
    {
        match Rc::try_unwrap(self.list) {
            Ok(list) => Ok(list),
            Err(shared) => shared.as_ref().copy(),
        }
    }
}

impl Duplicate for SharedEntries {
    fn copy(&self) -> Result<SharedEntries, NoMemory> {
        Ok(SharedEntries {
            list: self.list.clone()?,
        })
    }
}
