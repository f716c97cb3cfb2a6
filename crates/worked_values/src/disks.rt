ghost use Rattle.std.specs.Prelude.{◌≡◌, ◌≤◌, length, None, OnErr};
ghost use Rattle.sm_world.specs.Outside.{Rose};

use owned_lists::Octets;
use sm_world::{Disk, Failed, Failure, Told};

/// A disk that tells nothing of what it does, and refuses every call or none.
#[derive(Drop)]
pub struct SilentDisk {
    pub file: Octets,
    pub refuses: bool,
    pub faults: u64,
}

impl SilentDisk {
    fn call(&mut self) -> Result<(), Failed>
        ensures file { self.new.file ≡ self.old.file }
        ensures faults { self.old.faults ≤ self.new.faults }
        ensures rose { OnErr result (Rose self.old.faults self.new.faults) }
    {
        if self.refuses {
            self.faults = self.faults.saturating_add(1);
            return Err(Failed);
        }
        Ok(())
    }
}

impl Told for SilentDisk {
    ghost outside = { λ disk. record {
      told = None;
      faults = record { disk = disk.faults; links = 0; spawner = 0; console = 0 };
      size = length disk.file;
      first = None;
      coming = None;
      input = None;
      files = None;
    } };
}

impl Disk for SilentDisk {
    ghost use Rattle.std.proofs.Common.{refl};
    ghost use Rattle.sm_world.specs.Disk.{untold_size};

    ghost sized = { λ disk first told. untold_size (length disk.file) first None refl told };

    fn attach(&mut self, _path: &str) -> Result<(), Failure> {
        self.call()?;
        Ok(())
    }

    fn size(&mut self) -> Result<u64, Failure> {
        self.call()?;
        Ok(self.file.len() as u64)
    }

    fn read_at(&mut self, at: u64, into: &mut [u8]) -> Result<(), Failure> {
        self.call()?;
        let start = at as usize;
        into.copy_from_slice(&self.file.as_slice()[start..start + into.len()]);
        Ok(())
    }

    fn write_at(&mut self, at: u64, bytes: &[u8]) -> Result<(), Failed> {
        self.call()?;
        self.file.overwrite(at as usize, bytes);
        Ok(())
    }

    fn sync(&mut self) -> Result<(), Failed> {
        self.call()
    }

    fn publish(&mut self, _path: &str, _bytes: &[u8]) -> Result<(), Failure> {
        self.call()?;
        Ok(())
    }
}
