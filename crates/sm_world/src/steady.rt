ghost use Rattle.std.specs.Prelude.{◌≡◌, ◌≤◌, ◌+◌, [], ◌∷◌, length, take, drop, Some, is_err, true, IfOk, OnOk, OnErr};
ghost use Rattle.std.specs.List.{AllByRecursion};
ghost use Rattle.sm_world.specs.Calls.{one_more, counted_if};
ghost use Rattle.sm_world.specs.Choices.{IsCrashFile};
ghost use Rattle.sm_world.specs.Crash.{Image};
ghost use Rattle.sm_world.specs.Events.{HasPieceSize};
ghost use Rattle.sm_world.specs.Outside.{Rose};

use crate::tape::Tape;
use crate::{
    Choice, Conn, Console, Disk, Effect, Event, EventList, Failed, Failure, Links, Spawner, Told,
};
use owned_lists::{Command, Duplicate, NoMemory, Octets};
use std::alloc::Global;

/// A world in memory none of whose calls fails but for want of memory. It tells all that it does.
#[derive(Debug, Drop)]
pub struct SteadyWorld {
    tape: Tape,
    /// How often a write or a sync found no memory to record it.
    unrecorded: u64,
}

impl SteadyWorld {
    ghost use Rattle.sm_world.specs.Worlds.{steady_outside, steady_file, steady_unrecorded};

    /// A world whose links bring these events and then End, whose console has this input, and
    /// whose store begins with these bytes. A piece has at least one and at most 65,536 bytes.
    pub fn new(
        alloc: Global,
        events: EventList,
        input: Octets,
        file: Octets,
    ) -> Result<SteadyWorld, NoMemory>
        requires { AllByRecursion HasPieceSize events }
        ensures told { IfOk result (λ world. (steady_outside world).told ≡ Some []) }
        ensures coming { IfOk result (λ world. (steady_outside world).coming ≡ Some events) }
        ensures input { IfOk result (λ world. (steady_outside world).input ≡ Some input) }
        ensures file { IfOk result (λ world. steady_file world ≡ file) }
        ensures first { IfOk result (λ world. (steady_outside world).first ≡ Some file) }
        ensures unrecorded { IfOk result (λ world. steady_unrecorded world ≡ 0) }
    {
        Ok(SteadyWorld {
            tape: Tape::new(alloc, events, input, file)?,
            unrecorded: 0,
        })
    }

    /// The effects so far.
    pub fn effects(&self) -> &[Effect]
        ensures { Some result.now ≡ (steady_outside self.now).told }
    {
        self.tape.effects()
    }

    /// The bytes of the store.
    pub fn file(&self) -> &[u8]
        ensures { result.now ≡ steady_file self.now }
    {
        self.tape.file()
    }

    /// The file that a crash after the first effects leaves by a choice. A crash within a write is
    /// one after that write.
    pub fn crash_file(&self, first: usize, choice: Choice) -> Result<Octets, NoMemory>
        requires { first ≤ length self.now.tape.effects }
        ensures file { IfOk result
            (IsCrashFile self.now.tape.first (take first self.now.tape.effects) choice) }
        ensures image { IfOk result (Image self.now.tape.first (take first self.now.tape.effects)) }
    {
        self.tape.crash_file(first, choice)
    }

    /// How often a write or a sync found no memory to record it. A number that has reached the
    /// largest `u64` stays there.
    pub fn unrecorded(&self) -> u64
        ensures { result ≡ steady_unrecorded self.now }
    {
        self.unrecorded
    }

    /// Counts a call that can't be recorded.
    #[tactic(auto, using(crate::proofs::Counting::rises))]
    fn miss(&mut self) -> Failed
        ensures missed { self.new ≡ record self.old { unrecorded = one_more self.old.unrecorded } }
        ensures rose { Rose self.old.unrecorded self.new.unrecorded }
        ensures counts { self.old.unrecorded ≤ self.new.unrecorded }
    {
        self.unrecorded = self.unrecorded.saturating_add(1);
        Failed
    }
}

impl Told for SteadyWorld {
    ghost use Rattle.sm_world.specs.Worlds.{steady_outside};

    ghost outside = { steady_outside };
}

impl Links for SteadyWorld {
    ghost use Rattle.sm_world.specs.Outside.{adds, on_ok, of_ok, UsesLinks, TakesNext};
    ghost use Rattle.sm_world.specs.Worlds.{steady_outside, steady_file};
    ghost use Rattle.sm_world.specs.declared.effects.Effect.TheVariants.{Heard, Sent, Shut};

    fn listen(&mut self, _socket: &str, _control: &str) -> Result<(), Failure>
        ensures effects { (steady_outside self.new).told ≡ (steady_outside self.old).told }
        ensures coming { (steady_outside self.new).coming ≡ (steady_outside self.old).coming }
        ensures uses { UsesLinks (steady_outside self.old) (steady_outside self.new) result }
        ensures file { steady_file self.new ≡ steady_file self.old }
    {
        Ok(())
    }

    fn next(&mut self) -> Result<Event, Failure>
        ensures effects { (steady_outside self.new).told
            ≡ adds (steady_outside self.old).told (of_ok Heard result) }
        ensures coming { TakesNext (steady_outside self.old).coming
            (steady_outside self.new).coming result }
        ensures size { IfOk result HasPieceSize }
        ensures uses { UsesLinks (steady_outside self.old) (steady_outside self.new) result }
        ensures file { steady_file self.new ≡ steady_file self.old }
    {
        Ok(self.tape.hear()?)
    }

    fn send(&mut self, to: Conn, bytes: &[u8]) -> Result<(), Failure>
        ensures effects { (steady_outside self.new).told
            ≡ adds (steady_outside self.old).told (on_ok result (Sent to bytes.now ∷ [])) }
        ensures coming { (steady_outside self.new).coming ≡ (steady_outside self.old).coming }
        ensures uses { UsesLinks (steady_outside self.old) (steady_outside self.new) result }
        ensures file { steady_file self.new ≡ steady_file self.old }
    {
        let bytes = self.tape.octets(bytes)?;
        self.tape.note(Effect::Sent(to, bytes))?;
        Ok(())
    }

    fn shut(&mut self, to: Conn) -> Result<(), Failure>
        ensures effects { (steady_outside self.new).told
            ≡ adds (steady_outside self.old).told (on_ok result (Shut to ∷ [])) }
        ensures coming { (steady_outside self.new).coming ≡ (steady_outside self.old).coming }
        ensures uses { UsesLinks (steady_outside self.old) (steady_outside self.new) result }
        ensures file { steady_file self.new ≡ steady_file self.old }
    {
        self.tape.note(Effect::Shut(to))?;
        Ok(())
    }
}

impl Spawner for SteadyWorld {
    ghost use Rattle.sm_world.specs.Outside.{adds, of_ok, UsesSpawner};
    ghost use Rattle.sm_world.specs.Worlds.{steady_outside, steady_file, steady_unrecorded};
    ghost use Rattle.sm_world.specs.declared.effects.Effect.TheVariants.{Started};

    fn start(&mut self, command: &Command) -> Result<bool, NoMemory>
        ensures effects { (steady_outside self.new).told
            ≡ adds (steady_outside self.old).told (of_ok (Started command.now) result) }
        ensures uses { UsesSpawner (steady_outside self.old) (steady_outside self.new) result }
        ensures starts { IfOk result (λ started. started ≡ true) }
        ensures file { steady_file self.new ≡ steady_file self.old }
        ensures unrecorded { steady_unrecorded self.new ≡ steady_unrecorded self.old }
    {
        let command = command.copy()?;
        self.tape.note(Effect::Started(command, true))?;
        Ok(true)
    }
}

impl Console for SteadyWorld {
    ghost use Rattle.sm_world.specs.Outside.{adds, on_ok, UsesConsole, Reads};
    ghost use Rattle.sm_world.specs.Worlds.{steady_outside, steady_file};
    ghost use Rattle.sm_world.specs.declared.effects.Effect.TheVariants.{Printed};

    fn read(&mut self, into: &mut [u8]) -> Result<usize, Failure>
        ensures within { IfOk result (λ n. n ≤ length into.old) }
        ensures effects { (steady_outside self.new).told ≡ (steady_outside self.old).told }
        ensures input { Reads (steady_outside self.old).input
            (steady_outside self.new).input into.old into.new result }
        ensures uses { UsesConsole (steady_outside self.old) (steady_outside self.new) result }
        ensures file { steady_file self.new ≡ steady_file self.old }
    {
        Ok(self.tape.read(into))
    }

    fn print(&mut self, bytes: &[u8]) -> Result<(), Failure>
        ensures effects { (steady_outside self.new).told
            ≡ adds (steady_outside self.old).told (on_ok result (Printed bytes.now ∷ [])) }
        ensures input { (steady_outside self.new).input ≡ (steady_outside self.old).input }
        ensures uses { UsesConsole (steady_outside self.old) (steady_outside self.new) result }
        ensures file { steady_file self.new ≡ steady_file self.old }
    {
        let bytes = self.tape.octets(bytes)?;
        self.tape.note(Effect::Printed(bytes))?;
        Ok(())
    }
}

impl Disk for SteadyWorld {
    ghost use Rattle.owned_lists.specs.Bytes.{overwritten};
    ghost use Rattle.sm_world.specs.Disk.{has_failed, IsFailedWrite, IsFailedSync, MayRead, KeepsToldSize, UsesDisk};
    ghost use Rattle.sm_world.specs.Outside.{Added, adds, on_ok};
    ghost use Rattle.sm_world.specs.Worlds.{steady_outside, steady_file, steady_unrecorded, steady_sized};
    ghost use Rattle.sm_world.specs.declared.effects.Effect.TheVariants.{Wrote, Synced, Published};

    ghost sized = { steady_sized };

    fn attach(&mut self, _path: &str) -> Result<(), Failure>
        ensures effects { (steady_outside self.new).told ≡ (steady_outside self.old).told }
        ensures size { KeepsToldSize (steady_outside self.old) (steady_outside self.new) }
        ensures uses { UsesDisk (steady_outside self.old) (steady_outside self.new) (has_failed result) }
        ensures file { steady_file self.new ≡ steady_file self.old }
        ensures unrecorded { steady_unrecorded self.new ≡ steady_unrecorded self.old }
    {
        Ok(())
    }

    fn size(&mut self) -> Result<u64, Failure>
        ensures effects { (steady_outside self.new).told ≡ (steady_outside self.old).told }
        ensures size { KeepsToldSize (steady_outside self.old) (steady_outside self.new) }
        ensures answer { IfOk result (λ n. n ≡ (steady_outside self.new).size) }
        ensures uses { UsesDisk (steady_outside self.old) (steady_outside self.new) (has_failed result) }
        ensures file { steady_file self.new ≡ steady_file self.old }
        ensures unrecorded { steady_unrecorded self.new ≡ steady_unrecorded self.old }
    {
        Ok(self.tape.size())
    }

    fn read_at(&mut self, at: u64, into: &mut [u8]) -> Result<(), Failure>
        requires { at + length into.old ≤ (steady_outside self.old).size }
        ensures effects { (steady_outside self.new).told ≡ (steady_outside self.old).told }
        ensures size { (steady_outside self.new).size ≡ (steady_outside self.old).size }
        ensures bytes { OnOk result (MayRead (steady_outside self.old) at into.new) }
        ensures held { OnOk result
            (into.new ≡ take (length into.old) (drop at (steady_file self.old))) }
        ensures uses { UsesDisk (steady_outside self.old) (steady_outside self.new) (has_failed result) }
        ensures file { steady_file self.new ≡ steady_file self.old }
        ensures unrecorded { steady_unrecorded self.new ≡ steady_unrecorded self.old }
    {
        self.tape.read_at(at, into);
        Ok(())
    }

    fn write_at(&mut self, at: u64, bytes: &[u8]) -> Result<(), Failed>
        requires { at + length bytes.now ≤ (steady_outside self.old).size }
        ensures ok { OnOk result ((steady_outside self.new).told
            ≡ adds (steady_outside self.old).told (Wrote at bytes.now ∷ [])) }
        ensures err { OnErr result
            (Added (steady_outside self.old).told (steady_outside self.new).told
            (IsFailedWrite at (length bytes.now))) }
        ensures size { (steady_outside self.new).size ≡ (steady_outside self.old).size }
        ensures uses { UsesDisk (steady_outside self.old) (steady_outside self.new) (is_err result) }
        ensures file { OnOk result (steady_file self.new
            ≡ overwritten (steady_file self.old) at bytes.now) }
        ensures kept { OnErr result (steady_file self.new ≡ steady_file self.old) }
        ensures unrecorded { steady_unrecorded self.new
            ≡ counted_if (is_err result) (steady_unrecorded self.old) }
    {
        match self.tape.write_at(at, bytes) {
            Ok(()) => Ok(()),
            Err(NoMemory) => Err(self.miss()),
        }
    }

    fn sync(&mut self) -> Result<(), Failed>
        ensures ok { OnOk result ((steady_outside self.new).told
            ≡ adds (steady_outside self.old).told (Synced ∷ [])) }
        ensures err { OnErr result
            (Added (steady_outside self.old).told (steady_outside self.new).told IsFailedSync) }
        ensures size { (steady_outside self.new).size ≡ (steady_outside self.old).size }
        ensures uses { UsesDisk (steady_outside self.old) (steady_outside self.new) (is_err result) }
        ensures file { steady_file self.new ≡ steady_file self.old }
        ensures unrecorded { steady_unrecorded self.new
            ≡ counted_if (is_err result) (steady_unrecorded self.old) }
    {
        match self.tape.note(Effect::Synced) {
            Ok(()) => Ok(()),
            Err(NoMemory) => Err(self.miss()),
        }
    }

    fn publish(&mut self, path: &str, bytes: &[u8]) -> Result<(), Failure>
        ensures effects { (steady_outside self.new).told
            ≡ adds (steady_outside self.old).told (on_ok result
            (Published path.now bytes.now ∷ [])) }
        ensures size { (steady_outside self.new).size ≡ (steady_outside self.old).size }
        ensures uses { UsesDisk (steady_outside self.old) (steady_outside self.new) (has_failed result) }
        ensures file { steady_file self.new ≡ steady_file self.old }
        ensures unrecorded { steady_unrecorded self.new ≡ steady_unrecorded self.old }
    {
        let path = self.tape.octets(path.as_bytes())?;
        let bytes = self.tape.octets(bytes)?;
        self.tape.note(Effect::Published(path, bytes))?;
        Ok(())
    }
}
