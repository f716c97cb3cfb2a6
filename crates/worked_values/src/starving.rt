ghost use Rattle.std.specs.Prelude.{None};

use owned_lists::{Command, NoMemory, Octets};
use sm_world::{Console, Failure, Spawner, Told};
use state_saver::Files;

/// Files, programs and a console each of whose calls wants for memory, and which tell nothing.
#[derive(Drop)]
pub struct Starved;

impl Told for Starved {
    ghost outside = { λ starved. record {
      told = None;
      faults = record { disk = 0; links = 0; spawner = 0; console = 0 };
      size = 0;
      first = None;
      coming = None;
      input = None;
      files = None;
    } };
}

impl Files for Starved {
    ghost fetched = { λ starved. None };

    fn fetch(&mut self, _path: &str) -> Result<Octets, Failure> {
        Err(Failure::NoMemory)
    }

    fn publish(&mut self, _path: &str, _bytes: &[u8]) -> Result<(), Failure> {
        Err(Failure::NoMemory)
    }
}

impl Spawner for Starved {
    fn start(&mut self, _command: &Command) -> Result<bool, NoMemory> {
        Err(NoMemory)
    }
}

impl Console for Starved {
    fn read(&mut self, _into: &mut [u8]) -> Result<usize, Failure> {
        Err(Failure::NoMemory)
    }

    fn print(&mut self, _bytes: &[u8]) -> Result<(), Failure> {
        Err(Failure::NoMemory)
    }
}
