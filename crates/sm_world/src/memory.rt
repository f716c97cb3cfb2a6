ghost use Rattle.std.specs.Prelude.{◌≡◌, ◌≤◌, ◌+◌, ◌↔◌, ℕ, [], ◌∷◌, length, take, drop, Some, not, Contains, IsErr, IfOk, OnOk, OnErr};
ghost use Rattle.std.specs.List.{AllByRecursion};
ghost use Rattle.sm_world.specs.Choices.{IsCrashFile};
ghost use Rattle.sm_world.specs.Crash.{Image};
ghost use Rattle.sm_world.specs.Events.{HasPieceSize};
ghost use Rattle.sm_world.specs.Outside.{Rose};
ghost use Rattle.sm_world.specs.Calls.{counted, one_more};

use crate::calls::Calls;
use crate::tape::Tape;
use crate::{
    Choice, Conn, Console, Disk, Effect, Event, EventList, Failed, Failure, Faults, Links, Spawner,
    Told,
};
use owned_lists::{Command, Duplicate, NoMemory, NumberList, Octets};
use std::alloc::Global;

/// A world in memory whose calls are numbered from 1, and fail where they are told to. It tells
/// all that it does.
#[derive(Debug, Drop)]
pub struct MemWorld {
    tape: Tape,
    calls: Calls,
    faults: Faults,
    /// How often a write or a sync found no memory to record it.
    unrecorded: u64,
}

impl MemWorld {
    ghost use Rattle.sm_world.specs.Tape.{KeepsBytes};
    ghost use Rattle.sm_world.specs.Worlds.{mem_outside, mem_file, mem_calls, mem_unrecorded, NotesFailure, torn_effects};

    /// A world whose links bring these events and then End, whose console has this input, whose
    /// store begins with these bytes, and whose calls with the numbers in `failing` fail. A piece
    /// has at least one and at most 65,536 bytes.
    pub fn new(
        alloc: Global,
        events: EventList,
        input: Octets,
        file: Octets,
        failing: NumberList,
    ) -> Result<MemWorld, NoMemory>
        requires { AllByRecursion HasPieceSize events }
        ensures told { IfOk result (λ world. (mem_outside world).told ≡ Some []) }
        ensures coming { IfOk result (λ world. (mem_outside world).coming ≡ Some events) }
        ensures input { IfOk result (λ world. (mem_outside world).input ≡ Some input) }
        ensures faults { IfOk result (λ world. (mem_outside world).faults
            ≡ record { disk = 0; links = 0; spawner = 0; console = 0 }) }
        ensures file { IfOk result (λ world. mem_file world ≡ file) }
        ensures first { IfOk result (λ world. (mem_outside world).first ≡ Some file) }
        ensures unrecorded { IfOk result (λ world. mem_unrecorded world ≡ 0) }
        ensures last { IfOk result (λ world. (mem_calls world).last ≡ 0) }
        ensures failing { IfOk result (λ world. (number : ℕ) →
            Contains (mem_calls world).failing number ↔ Contains failing number) }
    {
        Ok(MemWorld {
            tape: Tape::new(alloc, events, input, file)?,
            calls: Calls::new(failing),
            faults: Faults {
                disk: 0,
                links: 0,
                spawner: 0,
                console: 0,
            },
            unrecorded: 0,
        })
    }

    /// The effects so far.
    pub fn effects(&self) -> &[Effect]
        ensures { Some result.now ≡ (mem_outside self.now).told }
    {
        self.tape.effects()
    }

    /// The bytes of the store.
    pub fn file(&self) -> &[u8]
        ensures { result.now ≡ mem_file self.now }
    {
        self.tape.file()
    }

    /// The file that a crash after the first effects leaves by a choice. A crash within a write is
    /// one after that write.
    pub fn crash_file(&self, first: usize, choice: Choice) -> Result<Octets, NoMemory>
        requires { first ≤ length self.now.tape.effects }
        ensures file { IfOk result
            (IsCrashFile self.now.tape.first (take first self.now.tape.effects) choice) }
        ensures image { IfOk result (Image self.now.tape.first (take first self.now.tape.effects)) }
    {
        self.tape.crash_file(first, choice)
    }

    /// How often a write or a sync found no memory to record it. A number that has reached the
    /// largest `u64` stays there.
    pub fn unrecorded(&self) -> u64
        ensures { result ≡ mem_unrecorded self.now }
    {
        self.unrecorded
    }

    /// Counts a call of Disk, and refuses it where its number fails.
    #[tactic(auto, using(crate::proofs::Counting::rises))]
    fn call_disk(&mut self) -> Result<(), Failed>
        ensures fails { IsErr result ↔ Contains self.new.calls.failing self.new.calls.last }
        ensures ok { OnOk result (self.new ≡ record self.old { calls = counted self.old.calls }) }
        ensures err { OnErr result
            (self.new ≡ record self.old {
              calls = counted self.old.calls;
              faults = record self.old.faults
                  { disk = one_more self.old.faults.disk };
            }) }
        ensures rose { OnErr result (Rose self.old.faults.disk self.new.faults.disk) }
        ensures counts { self.old.faults.disk ≤ self.new.faults.disk }
        ensures tape { self.new.tape ≡ self.old.tape }
    {
        if self.calls.count() {
            self.faults.disk = self.faults.disk.saturating_add(1);
            return Err(Failed);
        }
        Ok(())
    }

    /// Records a call that fails, where there is memory for that.
    fn note_failure(&mut self, effect: Effect) -> Failed
        requires { KeepsBytes effect }
        ensures { NotesFailure (effect ∷ []) self.old self.new }
    {
        if self.tape.note(effect).is_err() {
            self.unrecorded = self.unrecorded.saturating_add(1);
        }
        Failed
    }

    /// Records a write that fails. One of less than two bytes leaves nothing to record.
    fn tear(&mut self, at: u64, count: usize) -> Failed
        ensures { NotesFailure (torn_effects at count) self.old self.new }
    {
        if count < 2 {
            return Failed;
        }
        self.note_failure(Effect::Torn(at, count as u64))
    }

    /// Counts a call that can't be recorded.
    #[tactic(auto, using(crate::proofs::Counting::rises))]
    fn miss(&mut self) -> Failed
        ensures rose { Rose self.old.faults.disk self.new.faults.disk }
        ensures counts { self.old.faults.disk ≤ self.new.faults.disk }
        ensures missed { self.new ≡ record self.old {
          unrecorded = one_more self.old.unrecorded;
          faults = record self.old.faults
              { disk = one_more self.old.faults.disk };
        } }
    {
        self.unrecorded = self.unrecorded.saturating_add(1);
        self.faults.disk = self.faults.disk.saturating_add(1);
        Failed
    }

    /// Counts a call of Links, and refuses it where its number fails.
    #[tactic(auto, using(crate::proofs::Counting::rises))]
    fn call_links(&mut self) -> Result<(), Failed>
        ensures fails { IsErr result ↔ Contains self.new.calls.failing self.new.calls.last }
        ensures ok { OnOk result (self.new ≡ record self.old { calls = counted self.old.calls }) }
        ensures err { OnErr result
            (self.new ≡ record self.old {
              calls = counted self.old.calls;
              faults = record self.old.faults
                  { links = one_more self.old.faults.links };
            }) }
        ensures rose { OnErr result (Rose self.old.faults.links self.new.faults.links) }
        ensures counts { self.old.faults.links ≤ self.new.faults.links }
    {
        if self.calls.count() {
            self.faults.links = self.faults.links.saturating_add(1);
            return Err(Failed);
        }
        Ok(())
    }

    /// Counts a call of Console, and refuses it where its number fails.
    #[tactic(auto, using(crate::proofs::Counting::rises))]
    fn call_console(&mut self) -> Result<(), Failed>
        ensures fails { IsErr result ↔ Contains self.new.calls.failing self.new.calls.last }
        ensures ok { OnOk result (self.new ≡ record self.old { calls = counted self.old.calls }) }
        ensures err { OnErr result
            (self.new ≡ record self.old {
              calls = counted self.old.calls;
              faults = record self.old.faults
                  { console = one_more self.old.faults.console };
            }) }
        ensures rose { OnErr result (Rose self.old.faults.console self.new.faults.console) }
        ensures counts { self.old.faults.console ≤ self.new.faults.console }
    {
        if self.calls.count() {
            self.faults.console = self.faults.console.saturating_add(1);
            return Err(Failed);
        }
        Ok(())
    }
}

impl Told for MemWorld {
    ghost use Rattle.sm_world.specs.Worlds.{mem_outside};

    ghost outside = { mem_outside };
}

impl Links for MemWorld {
    ghost use Rattle.sm_world.specs.Outside.{adds, on_ok, of_ok, UsesLinks, TakesNext};
    ghost use Rattle.sm_world.specs.Disk.{has_failed};
    ghost use Rattle.sm_world.specs.Worlds.{mem_outside, FailsByNumber};
    ghost use Rattle.sm_world.specs.declared.effects.Effect.TheVariants.{Heard, Sent, Shut};

    fn listen(&mut self, _socket: &str, _control: &str) -> Result<(), Failure>
        ensures effects { (mem_outside self.new).told ≡ (mem_outside self.old).told }
        ensures coming { (mem_outside self.new).coming ≡ (mem_outside self.old).coming }
        ensures uses { UsesLinks (mem_outside self.old) (mem_outside self.new) result }
        ensures numbered { FailsByNumber (λ faults.
            faults.links) self.old self.new (has_failed result) }
    {
        self.call_links()?;
        Ok(())
    }

    fn next(&mut self) -> Result<Event, Failure>
        ensures effects { (mem_outside self.new).told
            ≡ adds (mem_outside self.old).told (of_ok Heard result) }
        ensures coming { TakesNext (mem_outside self.old).coming
            (mem_outside self.new).coming result }
        ensures size { IfOk result HasPieceSize }
        ensures uses { UsesLinks (mem_outside self.old) (mem_outside self.new) result }
        ensures numbered { FailsByNumber (λ faults.
            faults.links) self.old self.new (has_failed result) }
    {
        self.call_links()?;
        Ok(self.tape.hear()?)
    }

    fn send(&mut self, to: Conn, bytes: &[u8]) -> Result<(), Failure>
        ensures effects { (mem_outside self.new).told
            ≡ adds (mem_outside self.old).told (on_ok result (Sent to bytes.now ∷ [])) }
        ensures coming { (mem_outside self.new).coming ≡ (mem_outside self.old).coming }
        ensures uses { UsesLinks (mem_outside self.old) (mem_outside self.new) result }
        ensures numbered { FailsByNumber (λ faults.
            faults.links) self.old self.new (has_failed result) }
    {
        self.call_links()?;
        let bytes = self.tape.octets(bytes)?;
        self.tape.note(Effect::Sent(to, bytes))?;
        Ok(())
    }

    fn shut(&mut self, to: Conn) -> Result<(), Failure>
        ensures effects { (mem_outside self.new).told
            ≡ adds (mem_outside self.old).told (on_ok result (Shut to ∷ [])) }
        ensures coming { (mem_outside self.new).coming ≡ (mem_outside self.old).coming }
        ensures uses { UsesLinks (mem_outside self.old) (mem_outside self.new) result }
        ensures numbered { FailsByNumber (λ faults.
            faults.links) self.old self.new (has_failed result) }
    {
        self.call_links()?;
        self.tape.note(Effect::Shut(to))?;
        Ok(())
    }
}

impl Spawner for MemWorld {
    ghost use Rattle.sm_world.specs.Outside.{adds, of_ok, UsesSpawner};
    ghost use Rattle.sm_world.specs.Worlds.{mem_outside, mem_calls, mem_unrecorded, mem_file, FailsByNumber};
    ghost use Rattle.sm_world.specs.declared.effects.Effect.TheVariants.{Started};

    fn start(&mut self, command: &Command) -> Result<bool, NoMemory>
        ensures effects { (mem_outside self.new).told
            ≡ adds (mem_outside self.old).told (of_ok (Started command.now) result) }
        ensures uses { UsesSpawner (mem_outside self.old) (mem_outside self.new) result }
        ensures numbered { IfOk result (λ started.
            FailsByNumber (λ faults. faults.spawner) self.old self.new (not started)) }
        ensures counts { mem_calls self.new ≡ counted (mem_calls self.old) }
        ensures refused { OnErr result (mem_outside self.new ≡ mem_outside self.old) }
        ensures unrecorded { mem_unrecorded self.new ≡ mem_unrecorded self.old }
        ensures file { mem_file self.new ≡ mem_file self.old }
    {
        let fails = self.calls.count();
        let command = command.copy()?;
        self.tape.note(Effect::Started(command, !fails))?;
        if fails {
            self.faults.spawner = self.faults.spawner.saturating_add(1);
        }
        Ok(!fails)
    }
}

impl Console for MemWorld {
    ghost use Rattle.sm_world.specs.Outside.{adds, on_ok, UsesConsole, Reads};
    ghost use Rattle.sm_world.specs.Disk.{has_failed};
    ghost use Rattle.sm_world.specs.Worlds.{mem_outside, FailsByNumber};
    ghost use Rattle.sm_world.specs.declared.effects.Effect.TheVariants.{Printed};

    fn read(&mut self, into: &mut [u8]) -> Result<usize, Failure>
        ensures within { IfOk result (λ n. n ≤ length into.old) }
        ensures effects { (mem_outside self.new).told ≡ (mem_outside self.old).told }
        ensures input { Reads (mem_outside self.old).input
            (mem_outside self.new).input into.old into.new result }
        ensures uses { UsesConsole (mem_outside self.old) (mem_outside self.new) result }
        ensures numbered { FailsByNumber (λ faults.
            faults.console) self.old self.new (has_failed result) }
    {
        self.call_console()?;
        Ok(self.tape.read(into))
    }

    fn print(&mut self, bytes: &[u8]) -> Result<(), Failure>
        ensures effects { (mem_outside self.new).told
            ≡ adds (mem_outside self.old).told (on_ok result (Printed bytes.now ∷ [])) }
        ensures input { (mem_outside self.new).input ≡ (mem_outside self.old).input }
        ensures uses { UsesConsole (mem_outside self.old) (mem_outside self.new) result }
        ensures numbered { FailsByNumber (λ faults.
            faults.console) self.old self.new (has_failed result) }
    {
        self.call_console()?;
        let bytes = self.tape.octets(bytes)?;
        self.tape.note(Effect::Printed(bytes))?;
        Ok(())
    }
}

impl Disk for MemWorld {
    ghost use Rattle.std.specs.Prelude.{is_err};
    ghost use Rattle.owned_lists.specs.Bytes.{overwritten};
    ghost use Rattle.sm_world.specs.Disk.{has_failed, IsFailedWrite, IsFailedSync, MayRead, KeepsToldSize, UsesDisk};
    ghost use Rattle.sm_world.specs.Outside.{Added, adds, on_ok};
    ghost use Rattle.sm_world.specs.Worlds.{mem_outside, mem_file, FailsByNumber, FailsUnrecorded, RecordsFailure, torn_effects, mem_sized};
    ghost use Rattle.sm_world.specs.declared.effects.Effect.TheVariants.{Wrote, Synced, SyncFailed, Published};

    ghost sized = { mem_sized };

    fn attach(&mut self, _path: &str) -> Result<(), Failure>
        ensures effects { (mem_outside self.new).told ≡ (mem_outside self.old).told }
        ensures size { KeepsToldSize (mem_outside self.old) (mem_outside self.new) }
        ensures uses { UsesDisk (mem_outside self.old) (mem_outside self.new) (has_failed result) }
        ensures numbered { FailsByNumber (λ faults.
            faults.disk) self.old self.new (has_failed result) }
    {
        self.call_disk()?;
        Ok(())
    }

    fn size(&mut self) -> Result<u64, Failure>
        ensures effects { (mem_outside self.new).told ≡ (mem_outside self.old).told }
        ensures size { KeepsToldSize (mem_outside self.old) (mem_outside self.new) }
        ensures answer { IfOk result (λ n. n ≡ (mem_outside self.new).size) }
        ensures uses { UsesDisk (mem_outside self.old) (mem_outside self.new) (has_failed result) }
        ensures numbered { FailsByNumber (λ faults.
            faults.disk) self.old self.new (has_failed result) }
    {
        self.call_disk()?;
        Ok(self.tape.size())
    }

    fn read_at(&mut self, at: u64, into: &mut [u8]) -> Result<(), Failure>
        requires { at + length into.old ≤ (mem_outside self.old).size }
        ensures effects { (mem_outside self.new).told ≡ (mem_outside self.old).told }
        ensures size { (mem_outside self.new).size ≡ (mem_outside self.old).size }
        ensures bytes { OnOk result (MayRead (mem_outside self.old) at into.new) }
        ensures held { OnOk result
            (into.new ≡ take (length into.old) (drop at (mem_file self.old))) }
        ensures uses { UsesDisk (mem_outside self.old) (mem_outside self.new) (has_failed result) }
        ensures numbered { FailsByNumber (λ faults.
            faults.disk) self.old self.new (has_failed result) }
    {
        self.call_disk()?;
        self.tape.read_at(at, into);
        Ok(())
    }

    fn write_at(&mut self, at: u64, bytes: &[u8]) -> Result<(), Failed>
        requires { at + length bytes.now ≤ (mem_outside self.old).size }
        ensures ok { OnOk result ((mem_outside self.new).told
            ≡ adds (mem_outside self.old).told (Wrote at bytes.now ∷ [])) }
        ensures err { OnErr result
            (Added (mem_outside self.old).told (mem_outside self.new).told
            (IsFailedWrite at (length bytes.now))) }
        ensures size { (mem_outside self.new).size ≡ (mem_outside self.old).size }
        ensures file { OnOk result (mem_file self.new
            ≡ overwritten (mem_file self.old) at bytes.now) }
        ensures recorded { OnErr result
            (RecordsFailure (torn_effects at (length bytes.now)) self.old self.new) }
        ensures uses { UsesDisk (mem_outside self.old) (mem_outside self.new) (is_err result) }
        ensures numbered { FailsUnrecorded self.old self.new (is_err result) }
    {
        if self.call_disk().is_err() {
            return Err(self.tear(at, bytes.len()));
        }
        match self.tape.write_at(at, bytes) {
            Ok(()) => Ok(()),
            Err(NoMemory) => Err(self.miss()),
        }
    }

    fn sync(&mut self) -> Result<(), Failed>
        ensures ok { OnOk result ((mem_outside self.new).told
            ≡ adds (mem_outside self.old).told (Synced ∷ [])) }
        ensures err { OnErr result
            (Added (mem_outside self.old).told (mem_outside self.new).told IsFailedSync) }
        ensures size { (mem_outside self.new).size ≡ (mem_outside self.old).size }
        ensures file { mem_file self.new ≡ mem_file self.old }
        ensures recorded { OnErr result (RecordsFailure (SyncFailed ∷ []) self.old self.new) }
        ensures uses { UsesDisk (mem_outside self.old) (mem_outside self.new) (is_err result) }
        ensures numbered { FailsUnrecorded self.old self.new (is_err result) }
    {
        if self.call_disk().is_err() {
            return Err(self.note_failure(Effect::SyncFailed));
        }
        match self.tape.note(Effect::Synced) {
            Ok(()) => Ok(()),
            Err(NoMemory) => Err(self.miss()),
        }
    }

    fn publish(&mut self, path: &str, bytes: &[u8]) -> Result<(), Failure>
        ensures effects { (mem_outside self.new).told
            ≡ adds (mem_outside self.old).told (on_ok result (Published path.now bytes.now ∷ [])) }
        ensures size { (mem_outside self.new).size ≡ (mem_outside self.old).size }
        ensures uses { UsesDisk (mem_outside self.old) (mem_outside self.new) (has_failed result) }
        ensures numbered { FailsByNumber (λ faults.
            faults.disk) self.old self.new (has_failed result) }
    {
        self.call_disk()?;
        let path = self.tape.octets(path.as_bytes())?;
        let bytes = self.tape.octets(bytes)?;
        self.tape.note(Effect::Published(path, bytes))?;
        Ok(())
    }
}
