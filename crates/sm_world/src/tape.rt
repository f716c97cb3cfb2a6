ghost use Rattle.std.specs.Prelude.{◌≡◌, ◌≤◌, ◌+◌, [], ◌∷◌, ◌++◌, length, take, drop, IfOk, OnOk, OnErr};
ghost use Rattle.std.specs.List.{AllByRecursion};
ghost use Rattle.sm_world.specs.Crash.{Image, MayBeRead};
ghost use Rattle.sm_world.specs.Choices.{IsCrashFile};
ghost use Rattle.owned_lists.specs.Bytes.{overwritten};
ghost use Rattle.sm_world.specs.Events.{HasPieceSize, next_of};
ghost use Rattle.sm_world.specs.Outside.{Fills};
ghost use Rattle.sm_world.specs.Tape.{KeepsBytes};
ghost use Rattle.sm_world.specs.declared.effects.Effect.TheVariants.{Heard, Wrote};

use crate::crash::crash_file;
use crate::{Choice, Effect, Event, EventList};
use owned_lists::{Duplicate, NoMemory, Octets};
use std::alloc::Global;
use std::collections::VecDeque;
use std::marker::Model;

/// What the worlds in memory share: the effects so far, the events to come, the input, and the
/// store.
#[derive(Debug, Drop)]
pub struct Tape {
    effects: Vec<Effect>,
    coming: VecDeque<Event>,
    input: Octets,
    /// How many bytes of the input were read.
    taken: usize,
    /// The store as it began.
    first: Octets,
    /// The store as it is now.
    file: Octets,
}

impl Model for Tape {
    ghost use Rattle.std.specs.Prelude.{◌≤◌, length, drop};
    ghost use Rattle.std.specs.List.{AllByRecursion};
    ghost use Rattle.sm_world.specs.Events.{HasPieceSize};
    ghost use Rattle.sm_world.specs.Tape.{Recorded, IsHeld};

    ghost Value = { Recorded };

    ghost view = { λ t.
        record {
          effects = t.effects.items;
          coming = t.coming.items;
          input = drop t.taken
              t.input;
          first = t.first;
          file = t.file;
        } };

    ghost invariant = { λ t. (t.taken ≤ length t.input) × AllByRecursion HasPieceSize t.coming.items
        × IsHeld t.first t.effects.items t.file };
}

impl Tape {
    #[tactic(auto, using(crate::proofs::Holding::held_first))]
    pub fn new(
        alloc: Global,
        events: EventList,
        input: Octets,
        file: Octets,
    ) -> Result<Tape, NoMemory>
        requires { AllByRecursion HasPieceSize events }
        ensures { IfOk result (λ tape.
            tape ≡ record {
              effects = [];
              coming = events;
              input = input;
              first = file;
              file = file;
            }) }
    {
        let first = file.copy()?;
        Ok(Tape {
            effects: Vec::new(alloc),
            coming: VecDeque::from(events.into_vec()),
            input,
            taken: 0,
            first,
            file,
        })
    }

    pub fn effects(&self) -> &[Effect]
        ensures { result.now ≡ self.now.effects }
    {
        self.effects.as_slice()
    }

    /// The bytes of the store.
    pub fn file(&self) -> &[u8]
        ensures { result.now ≡ self.now.file }
    {
        self.file.as_slice()
    }

    /// How many bytes the store has.
    pub fn size(&self) -> u64
        ensures { result ≡ length self.now.first }
    {
        self.first.len() as u64
    }

    /// A copy of these bytes for an effect.
    pub fn octets(&self, bytes: &[u8]) -> Result<Octets, NoMemory>
        ensures { IfOk result (λ octets. octets ≡ bytes.now) }
    {
        Octets::from_slice(*self.effects.allocator(), bytes)
    }

    /// A copy of the next event.
    fn upcoming(&self) -> Result<Event, NoMemory>
        ensures { IfOk result (λ event. event ≡ next_of self.now.coming) }
    {
        match self.coming.front() {
            Some(event) => event.copy(),
            None => Ok(Event::End),
        }
    }

    /// Takes the next event and notes that it was heard.
    pub fn hear(&mut self) -> Result<Event, NoMemory>
        ensures event { IfOk result (λ event. event ≡ next_of self.old.coming) }
        ensures size { IfOk result HasPieceSize }
        ensures ok { IfOk result (λ event. self.new
            ≡ record self.old {
              effects = self.old.effects ++ Heard event
                  ∷ [];
              coming = drop 1 self.old.coming;
            }) }
        ensures err { OnErr result (self.new ≡ self.old) }
    {
        let heard = self.upcoming()?;
        self.note(Effect::Heard(heard))?;
        Ok(self.coming.pop_front().unwrap_or(Event::End))
    }

    /// Notes an effect that writes no bytes to the store.
    #[tactic(auto, using(crate::proofs::Holding::held_noted))]
    pub fn note(&mut self, effect: Effect) -> Result<(), NoMemory>
        requires { KeepsBytes effect }
        ensures ok { OnOk result
            (self.new ≡ record self.old { effects = self.old.effects ++ effect ∷ [] }) }
        ensures err { OnErr result (self.new ≡ self.old) }
    {
        self.effects.push(effect)?;
        Ok(())
    }

    /// Reads as much of the input as there is room for, and says how many bytes that is.
    pub fn read(&mut self, into: &mut [u8]) -> usize
        ensures within { result ≤ length into.old }
        ensures fills { Fills self.old.input self.new.input result into.old into.new }
        ensures others { self.new ≡ record self.old { input = self.new.input } }
    {
        let left = &self.input.as_slice()[self.taken..];
        let count = left.len().min(into.len());
        into[..count].copy_from_slice(&left[..count]);
        self.taken += count;
        count
    }

    /// Reads bytes of the store.
    #[tactic(auto, using(crate::proofs::Holding::held_read))]
    pub fn read_at(&self, at: u64, into: &mut [u8])
        requires { at + length into.old ≤ length self.now.first }
        ensures held { into.new ≡ take (length into.old) (drop at self.now.file) }
        ensures bytes { MayBeRead self.now.first self.now.effects at into.new }
    {
        let start = at as usize;
        into.copy_from_slice(&self.file.as_slice()[start..start + into.len()]);
    }

    /// Writes bytes to the store, and notes that.
    #[tactic(auto, using(crate::proofs::Holding::held_written))]
    pub fn write_at(&mut self, at: u64, bytes: &[u8]) -> Result<(), NoMemory>
        requires { at + length bytes.now ≤ length self.old.first }
        ensures ok { OnOk result
            (self.new ≡ record self.old {
              effects = self.old.effects ++ Wrote at bytes.now
                  ∷ [];
              file = overwritten self.old.file at bytes.now;
            }) }
        ensures err { OnErr result (self.new ≡ self.old) }
    {
        let written = self.octets(bytes)?;
        self.effects.push(Effect::Wrote(at, written))?;
        self.file.overwrite(at as usize, bytes);
        Ok(())
    }

    /// The file that a crash after the first effects leaves by a choice.
    pub fn crash_file(&self, first: usize, choice: Choice) -> Result<Octets, NoMemory>
        requires { first ≤ length self.now.effects }
        ensures file { IfOk result
            (IsCrashFile self.now.first (take first self.now.effects) choice) }
        ensures image { IfOk result (Image self.now.first (take first self.now.effects)) }
    {
        let effects = &self.effects.as_slice()[..first];
        crash_file(
            *self.effects.allocator(),
            self.first.as_slice(),
            effects,
            choice,
        )
    }
}
