ghost use Rattle.std.specs.Prelude.{◌≡◌, ◌≤◌, [], length, IfOk};
ghost use Rattle.sm_world.specs.Disk.{has_failed};
ghost use Rattle.sm_world.specs.Outside.{UsesLinks};
ghost use Rattle.sm_world.specs.Worlds.{FailsByNumber, mem_outside, steady_file, steady_outside};
ghost use Rattle.client_peer.specs.Peers.{Fetches};

use crate::outer::Outer;
use owned_lists::Octets;
use sm_world::{Failure, Links, MemWorld, SteadyWorld};
use std::alloc::Global;

/// Each call is numbered as a call of the links is. A file that is fetched is empty.
impl Outer for MemWorld {
    fn open_outer(&mut self, path: &str) -> Result<(), Failure>
        ensures effects { (mem_outside self.new).told ≡ (mem_outside self.old).told }
        ensures coming { (mem_outside self.new).coming ≡ (mem_outside self.old).coming }
        ensures uses { UsesLinks (mem_outside self.old) (mem_outside self.new) result }
        ensures numbered { FailsByNumber (λ faults.
            faults.links) self.old self.new (has_failed result) }
    {
        self.listen(path, path)
    }

    fn fetch(&mut self, alloc: Global, path: &str) -> Result<Octets, Failure>
        ensures limit { IfOk result (λ bytes. length bytes ≤ 65536) }
        ensures bytes { Fetches (mem_outside self.old).files path.now result }
        ensures effects { (mem_outside self.new).told ≡ (mem_outside self.old).told }
        ensures coming { (mem_outside self.new).coming ≡ (mem_outside self.old).coming }
        ensures uses { UsesLinks (mem_outside self.old) (mem_outside self.new) result }
        ensures empty { IfOk result (λ bytes. bytes ≡ []) }
        ensures numbered { FailsByNumber (λ faults.
            faults.links) self.old self.new (has_failed result) }
    {
        match self.listen(path, path) {
            Ok(()) => Ok(Octets::new(alloc)),
            Err(failure) => Err(failure),
        }
    }
}

/// No call fails. A file that is fetched is empty.
impl Outer for SteadyWorld {
    fn open_outer(&mut self, path: &str) -> Result<(), Failure>
        ensures effects { (steady_outside self.new).told ≡ (steady_outside self.old).told }
        ensures coming { (steady_outside self.new).coming ≡ (steady_outside self.old).coming }
        ensures uses { UsesLinks (steady_outside self.old) (steady_outside self.new) result }
        ensures file { steady_file self.new ≡ steady_file self.old }
    {
        self.listen(path, path)
    }

    fn fetch(&mut self, alloc: Global, path: &str) -> Result<Octets, Failure>
        ensures limit { IfOk result (λ bytes. length bytes ≤ 65536) }
        ensures bytes { Fetches (steady_outside self.old).files path.now result }
        ensures effects { (steady_outside self.new).told ≡ (steady_outside self.old).told }
        ensures coming { (steady_outside self.new).coming ≡ (steady_outside self.old).coming }
        ensures uses { UsesLinks (steady_outside self.old) (steady_outside self.new) result }
        ensures empty { IfOk result (λ bytes. bytes ≡ []) }
        ensures file { steady_file self.new ≡ steady_file self.old }
    {
        match self.listen(path, path) {
            Ok(()) => Ok(Octets::new(alloc)),
            Err(failure) => Err(failure),
        }
    }
}
