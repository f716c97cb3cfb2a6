ghost use Rattle.std.specs.Prelude.{None};

use owned_lists::{NoMemory, Octets, PairList};
use sm_world::{Failure, Told};
use state_saver::Files;
use std::alloc::Global;

/// Files that somebody else writes too: each has another byte whenever it is fetched, which is 1 at first and goes on
/// from 255 with 1. Nothing is told; what was published is here to be looked at.
#[derive(Debug, Drop)]
pub struct Changing {
    alloc: Global,
    last: u8,
    /// The paths and bytes that were published.
    pub published: PairList,
}

impl Changing {
    /// Nothing was fetched or published yet; this takes no memory.
    pub fn new(alloc: Global) -> Changing {
        Changing {
            alloc,
            last: 0,
            published: PairList::new(alloc),
        }
    }
}

impl Told for Changing {
    ghost outside = { λ changing. record {
      told = None;
      faults = record { disk = 0; links = 0; spawner = 0; console = 0 };
      size = 0;
      first = None;
      coming = None;
      input = None;
      files = None;
    } };
}

impl Files for Changing {
    ghost fetched = { λ changing. None };

    fn fetch(&mut self, _path: &str) -> Result<Octets, Failure> {
        self.last = self.last % 255 + 1;
        match Octets::from_slice(self.alloc, &[self.last]) {
            Ok(bytes) => Ok(bytes),
            Err(NoMemory) => Err(Failure::NoMemory),
        }
    }

    fn publish(&mut self, path: &str, bytes: &[u8]) -> Result<(), Failure> {
        let path = Octets::from_slice(self.alloc, path.as_bytes())?;
        let bytes = Octets::from_slice(self.alloc, bytes)?;
        self.published.push((path, bytes))?;
        Ok(())
    }
}
