ghost use Rattle.std.specs.Prelude.{◌≡◌, ◌≤◌, ◌↔◌, ◌⊎◌, ℕ, true, false, [], ◌∷◌, ◌++◌, length, Some, Contains, IsErr, option_copied, option_map, IfOk, OnOk, OnErr};
ghost use Rattle.sm_world.specs.Outside.{Rose};
ghost use Rattle.sm_world.specs.Calls.{counted, one_more};
ghost use Rattle.state_saver.specs.Files.{after_one, file_at, file_now};

use crate::files::{FILE_LIMIT, Files};
use owned_lists::{Command, Duplicate, ListOf, NoMemory, NumberList, Octets, PairList};
use sm_world::{Calls, Console, Effect, Failed, Failure, Faults, Spawner, Told};
use std::alloc::Global;

/// Files in memory, beside which programs are started, whose calls are numbered from 1 and fail where
/// they are told to. They tell all that they do. The console has an empty input.
#[derive(Debug, Drop)]
pub struct MemFiles {
    alloc: Global,
    effects: ListOf<Effect>,
    /// The paths and bytes of the files with which it began.
    files: PairList,
    /// The paths and bytes that were fetched.
    fetched: PairList,
    calls: Calls,
    faults: Faults,
}

/// The bytes of the first file with this path.
fn find<'a>(files: &'a [(Octets, Octets)], path: &[u8]) -> Option<&'a Octets>
    ensures { option_copied result ≡ file_at path.now files.now }
{
    for file in files {
        if file.0.as_slice() == path {
            return Some(&file.1);
        }
    }
    None
}

/// What stands at a path after an effect.
fn replaced<'a>(path: &[u8], before: Option<&'a Octets>, effect: &'a Effect) -> Option<&'a Octets>
    ensures { option_copied result ≡ after_one path.now (option_copied before.entry) effect.now }
{
    if let Effect::Published(at, bytes) = effect {
        if at.as_slice() == path {
            return Some(bytes);
        }
    }
    before
}

impl MemFiles {
    ghost use Rattle.state_saver.specs.Memory.{fits, mem_outside, mem_calls, mem_fetched};

    /// Files with these paths and bytes, of which the first with a path is the one at it, and whose
    /// calls with the numbers in `failing` fail.
    pub fn new(alloc: Global, files: PairList, failing: NumberList) -> Result<MemFiles, NoMemory>
        ensures told { IfOk result (λ world. (mem_outside world).told ≡ Some []) }
        ensures faults { IfOk result (λ world. (mem_outside world).faults
            ≡ record { disk = 0; links = 0; spawner = 0; console = 0 }) }
        ensures files { IfOk result (λ world. (mem_outside world).files ≡ Some files) }
        ensures fetched { IfOk result (λ world. mem_fetched world ≡ Some []) }
        ensures last { IfOk result (λ world. (mem_calls world).last ≡ 0) }
        ensures failing { IfOk result (λ world. (number : ℕ) →
            Contains (mem_calls world).failing number ↔ Contains failing number) }
    {
        Ok(MemFiles {
            alloc,
            effects: ListOf::new(alloc),
            files,
            fetched: PairList::new(alloc),
            calls: Calls::new(failing),
            faults: Faults {
                disk: 0,
                links: 0,
                spawner: 0,
                console: 0,
            },
        })
    }

    /// The effects so far.
    pub fn effects(&self) -> &[Effect]
        ensures { Some result.now ≡ (mem_outside self.now).told }
    {
        self.effects.as_slice()
    }

    /// What was fetched so far.
    pub fn fetched(&self) -> &[(Octets, Octets)]
        ensures { Some result.now ≡ mem_fetched self.now }
    {
        self.fetched.as_slice()
    }

    /// A copy of these bytes for an effect.
    fn octets(&self, bytes: &[u8]) -> Result<Octets, NoMemory>
        ensures { IfOk result (λ octets. octets ≡ bytes.now) }
    {
        Octets::from_slice(self.alloc, bytes)
    }

    /// What stands at a path.
    fn standing(&self, path: &[u8]) -> Option<&Octets>
        ensures { option_copied result ≡ file_now path.now self.now.files self.now.effects }
    {
        let mut found = find(self.files.as_slice(), path);
        for effect in self.effects.as_slice() {
            found = replaced(path, found, effect);
        }
        found
    }

    /// Whether there is a file at this path that can be fetched.
    fn has_file(&self, path: &[u8]) -> bool
        ensures { result ≡ fits (file_now path.now self.now.files self.now.effects) }
    {
        match self.standing(path) {
            Some(bytes) => bytes.len() <= FILE_LIMIT,
            None => false,
        }
    }

    /// A copy of the file at this path, which must be one that can be fetched.
    fn copy_file(&self, path: &[u8]) -> Result<Octets, NoMemory>
        requires { fits (file_now path.now self.now.files self.now.effects) ≡ true }
        ensures { IfOk result (λ bytes. file_now path.now self.now.files self.now.effects
            ≡ Some bytes) }
    {
        match self.standing(path) {
            Some(bytes) => bytes.copy(),
            None => unreachable!(),
        }
    }

    /// Counts a fault of the disk.
    #[tactic(auto, using(sm_world::proofs::Counting::rises))]
    fn miss(&mut self) -> Failed
        ensures counted { self.new ≡ record self.old
            { faults = record self.old.faults { disk = one_more self.old.faults.disk } } }
        ensures rose { Rose self.old.faults.disk self.new.faults.disk }
        ensures counts { self.old.faults.disk ≤ self.new.faults.disk }
    {
        self.faults.disk = self.faults.disk.saturating_add(1);
        Failed
    }

    /// Counts a call that publishes, and refuses it where its number fails.
    fn call_disk(&mut self) -> Result<(), Failed>
        ensures fails { IsErr result ↔ Contains self.new.calls.failing self.new.calls.last }
        ensures ok { OnOk result (self.new ≡ record self.old { calls = counted self.old.calls }) }
        ensures err { OnErr result
            (self.new ≡ record self.old {
              calls = counted self.old.calls;
              faults = record self.old.faults
                  { disk = one_more self.old.faults.disk };
            }) }
        ensures rose { OnErr result (Rose self.old.faults.disk self.new.faults.disk) }
        ensures counts { self.old.faults.disk ≤ self.new.faults.disk }
    {
        if self.calls.count() {
            return Err(self.miss());
        }
        Ok(())
    }

    /// Counts a fetch, and refuses it where its number fails or no file can be fetched.
    fn call_fetch(&mut self, path: &[u8]) -> Result<(), Failed>
        ensures fails { IsErr result ↔ Contains self.new.calls.failing self.new.calls.last
            ⊎ (fits (file_now path.now self.old.files self.old.effects) ≡ false) }
        ensures ok { OnOk result (self.new ≡ record self.old { calls = counted self.old.calls }) }
        ensures err { OnErr result
            (self.new ≡ record self.old {
              calls = counted self.old.calls;
              faults = record self.old.faults
                  { disk = one_more self.old.faults.disk };
            }) }
        ensures rose { OnErr result (Rose self.old.faults.disk self.new.faults.disk) }
        ensures counts { self.old.faults.disk ≤ self.new.faults.disk }
    {
        if self.calls.count() || !self.has_file(path) {
            return Err(self.miss());
        }
        Ok(())
    }

    /// Counts a call of Console, and refuses it where its number fails.
    #[tactic(auto, using(sm_world::proofs::Counting::rises))]
    fn call_console(&mut self) -> Result<(), Failed>
        ensures fails { IsErr result ↔ Contains self.new.calls.failing self.new.calls.last }
        ensures ok { OnOk result (self.new ≡ record self.old { calls = counted self.old.calls }) }
        ensures err { OnErr result
            (self.new ≡ record self.old {
              calls = counted self.old.calls;
              faults = record self.old.faults
                  { console = one_more self.old.faults.console };
            }) }
        ensures rose { OnErr result (Rose self.old.faults.console self.new.faults.console) }
        ensures counts { self.old.faults.console ≤ self.new.faults.console }
    {
        if self.calls.count() {
            self.faults.console = self.faults.console.saturating_add(1);
            return Err(Failed);
        }
        Ok(())
    }
}

impl Told for MemFiles {
    ghost use Rattle.state_saver.specs.Memory.{mem_outside};

    ghost outside = { mem_outside };
}

impl Files for MemFiles {
    ghost use Rattle.sm_world.specs.Disk.{has_failed, UsesDisk};
    ghost use Rattle.sm_world.specs.Outside.{adds, on_ok};
    ghost use Rattle.sm_world.specs.declared.effects.Effect.TheVariants.{Published};
    ghost use Rattle.state_saver.specs.Files.{Holds, fetches};
    ghost use Rattle.state_saver.specs.Memory.{mem_fetched, mem_outside, FailsByNumber, FailsToFetch};

    ghost fetched = { mem_fetched };

    fn fetch(&mut self, path: &str) -> Result<Octets, Failure>
        ensures limit { IfOk result (λ bytes. length bytes ≤ 65536) }
        ensures bytes { IfOk result (Holds (mem_outside self.old) path.now) }
        ensures fetched { mem_fetched self.new ≡ fetches (mem_fetched self.old) path.now result }
        ensures effects { (mem_outside self.new).told ≡ (mem_outside self.old).told }
        ensures size { (mem_outside self.new).size ≡ (mem_outside self.old).size }
        ensures uses { UsesDisk (mem_outside self.old) (mem_outside self.new) (has_failed result) }
        ensures numbered { FailsToFetch path.now self.old self.new (has_failed result) }
    {
        self.call_fetch(path.as_bytes())?;
        let bytes = self.copy_file(path.as_bytes())?;
        let told = (self.octets(path.as_bytes())?, bytes.copy()?);
        self.fetched.push(told)?;
        Ok(bytes)
    }

    fn publish(&mut self, path: &str, bytes: &[u8]) -> Result<(), Failure>
        ensures fetched { mem_fetched self.new ≡ mem_fetched self.old }
        ensures effects { (mem_outside self.new).told
            ≡ adds (mem_outside self.old).told (on_ok result (Published path.now bytes.now ∷ [])) }
        ensures size { (mem_outside self.new).size ≡ (mem_outside self.old).size }
        ensures uses { UsesDisk (mem_outside self.old) (mem_outside self.new) (has_failed result) }
        ensures numbered { FailsByNumber (λ faults.
            faults.disk) self.old self.new (has_failed result) }
    {
        self.call_disk()?;
        let path = self.octets(path.as_bytes())?;
        let bytes = self.octets(bytes)?;
        self.effects.push(Effect::Published(path, bytes))?;
        Ok(())
    }
}

impl Spawner for MemFiles {
    ghost use Rattle.std.specs.Prelude.{not};
    ghost use Rattle.sm_world.specs.Outside.{adds, of_ok, UsesSpawner};
    ghost use Rattle.sm_world.specs.declared.effects.Effect.TheVariants.{Started};
    ghost use Rattle.state_saver.specs.Memory.{mem_outside, mem_calls, FailsByNumber};

    fn start(&mut self, command: &Command) -> Result<bool, NoMemory>
        ensures effects { (mem_outside self.new).told
            ≡ adds (mem_outside self.old).told (of_ok (Started command.now) result) }
        ensures uses { UsesSpawner (mem_outside self.old) (mem_outside self.new) result }
        ensures numbered { IfOk result (λ started.
            FailsByNumber (λ faults. faults.spawner) self.old self.new (not started)) }
        ensures counts { mem_calls self.new ≡ counted (mem_calls self.old) }
    {
        let fails = self.calls.count();
        let command = command.copy()?;
        self.effects.push(Effect::Started(command, !fails))?;
        if fails {
            self.faults.spawner = self.faults.spawner.saturating_add(1);
        }
        Ok(!fails)
    }
}

impl Console for MemFiles {
    ghost use Rattle.sm_world.specs.Disk.{has_failed};
    ghost use Rattle.sm_world.specs.Outside.{adds, on_ok, UsesConsole, Reads};
    ghost use Rattle.sm_world.specs.declared.effects.Effect.TheVariants.{Printed};
    ghost use Rattle.state_saver.specs.Memory.{mem_outside, FailsByNumber};

    fn read(&mut self, into: &mut [u8]) -> Result<usize, Failure>
        ensures within { IfOk result (λ n. n ≤ length into.old) }
        ensures effects { (mem_outside self.new).told ≡ (mem_outside self.old).told }
        ensures input { Reads (mem_outside self.old).input
            (mem_outside self.new).input into.old into.new result }
        ensures uses { UsesConsole (mem_outside self.old) (mem_outside self.new) result }
        ensures numbered { FailsByNumber (λ faults.
            faults.console) self.old self.new (has_failed result) }
    {
        self.call_console()?;
        Ok(0)
    }

    fn print(&mut self, bytes: &[u8]) -> Result<(), Failure>
        ensures effects { (mem_outside self.new).told
            ≡ adds (mem_outside self.old).told (on_ok result (Printed bytes.now ∷ [])) }
        ensures input { (mem_outside self.new).input ≡ (mem_outside self.old).input }
        ensures uses { UsesConsole (mem_outside self.old) (mem_outside self.new) result }
        ensures numbered { FailsByNumber (λ faults.
            faults.console) self.old self.new (has_failed result) }
    {
        self.call_console()?;
        let bytes = self.octets(bytes)?;
        self.effects.push(Effect::Printed(bytes))?;
        Ok(())
    }
}
