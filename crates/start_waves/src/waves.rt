ghost use Rattle.std.specs.Prelude.{◌≡◌, [], false, map, filter, IfOk, OnOk, OnErr, IsTrue};
ghost use Rattle.start_waves.specs.Waves.{Login, command_in, turn_of, with_turn, is_left, is_due, has_priority, next_wave, wave_gone, settled, passed_on, due_wave, gone_on};

use crate::ranks::{is_ranked, lowest, priority_of_command};
use crate::{Ranked, RankedList};
use owned_lists::{Command, CommandList, Duplicate, NoMemory};
use std::alloc::Global;
use std::marker::Model;

/// For how many milliseconds a wave waits at most for the programs of the one before it.
pub const PATIENCE: u64 = 2_000;

/// When a program is started.
#[derive(Clone, Copy, Debug, PartialEq, Eq)]
pub enum Turn {
    /// Now. It is no program of the login, or the login's first wave has begun.
    Apart,
    /// Now. It is of the first wave, and the next one waits for it.
    First,
    /// With the wave that it was put into.
    Later,
}

/// The programs of a login that are started later, and for how many of the last wave they wait.
///
/// Those of the lowest priority are the first wave. All that are handed over before the first wave has
/// begun are put into waves; of a program that is started behind that nobody waits for anything.
#[derive(Drop)]
pub struct Waves {
    /// The programs of the login. Of those that have the same words the earliest counts.
    ranks: RankedList,
    /// Those that wait, in the order in which they were handed over.
    waiting: Vec<Ranked>,
    /// The first wave was handed over.
    begun: bool,
    /// How many programs of the last wave are still to join.
    awaited: u64,
    /// How many milliseconds have passed since the last wave began.
    passed: u64,
}

impl Model for Waves {
    ghost use Rattle.start_waves.specs.Waves.{Login};

    ghost Value = { Login };

    ghost view = { λ waves. record {
      ranks = waves.ranks;
      waiting = waves.waiting.items;
      begun = waves.begun;
      awaited = waves.awaited;
      passed = waves.passed;
    } };
}

impl Waves {
    /// A login of these programs, of which none has been handed over. Without programs nobody waits.
    pub fn new(alloc: Global, ranks: RankedList) -> Waves
        ensures { result ≡ record { ranks = ranks; waiting = []; begun = false; awaited = 0; passed = 0 } }
    {
        Waves {
            ranks,
            waiting: Vec::new(alloc),
            begun: false,
            awaited: 0,
            passed: 0,
        }
    }

    /// When a command is started.
    fn turn(&self, command: &Command) -> Turn
        ensures { result ≡ turn_of self.now command.now }
    {
        if self.begun || !is_ranked(command, self.ranks.as_slice()) {
            return Turn::Apart;
        }
        let ranks = self.ranks.as_slice();
        if priority_of_command(command, ranks) == lowest(ranks) {
            Turn::First
        } else {
            Turn::Later
        }
    }

    /// Takes a command that is to be started, and says when it is. A refused call changes nothing.
    pub fn take(&mut self, command: &Command) -> Result<Turn, NoMemory>
        ensures turn { IfOk result (λ turn. turn ≡ turn_of self.old command.now) }
        ensures taken { OnOk result (self.new ≡ with_turn command.now self.old) }
        ensures err { OnErr result (self.new ≡ self.old) }
    {
        let turn = self.turn(command);
        match turn {
            Turn::Apart => {}
            Turn::First => self.awaited = self.awaited.saturating_add(1),
            Turn::Later => {
                let priority = priority_of_command(command, self.ranks.as_slice());
                let command = command.copy()?;
                self.waiting.push(Ranked { command, priority })?;
            }
        }
        Ok(turn)
    }

    /// Whether programs wait.
    pub fn are_left(&self) -> bool
        ensures { result ≡ is_left self.now }
    {
        !self.waiting.is_empty()
    }

    /// One of the last wave has joined, or couldn't be started.
    pub fn settle(&mut self)
        ensures { self.new ≡ settled self.old }
    {
        self.awaited = self.awaited.saturating_sub(1);
    }

    /// So many milliseconds have passed.
    pub fn pass(&mut self, milliseconds: u64)
        ensures { self.new ≡ passed_on milliseconds self.old }
    {
        self.passed = self.passed.saturating_add(milliseconds);
    }

    /// Whether the next wave waits for nobody any more.
    fn is_due(&self) -> bool
        ensures { result ≡ is_due self.now }
    {
        self.are_left() && (self.awaited == 0 || self.passed >= PATIENCE)
    }

    /// The commands of those that wait and have this priority.
    fn wave(&self, priority: u8) -> Result<CommandList, NoMemory>
        ensures { IfOk result (λ wave. wave ≡ map command_in (filter (has_priority priority) self.now.waiting)) }
    {
        let mut wave = CommandList::new(*self.waiting.allocator());
        for it in &self.waiting {
            if it.priority == priority {
                wave.push(it.command.copy()?)?;
            }
        }
        Ok(wave)
    }

    /// Hands out the next wave.
    fn begin(&mut self) -> Result<CommandList, NoMemory>
        ensures wave { IfOk result (λ wave. wave ≡ map command_in (next_wave self.old.waiting)) }
        ensures gone { OnOk result (self.new ≡ wave_gone self.old) }
        ensures err { OnErr result (self.new ≡ self.old) }
    {
        let priority = lowest(self.waiting.as_slice());
        let wave = self.wave(priority)?;
        self.waiting.retain(|it| it.priority != priority);
        self.awaited = wave.as_slice().len() as u64;
        self.passed = 0;
        self.begun = true;
        Ok(wave)
    }

    /// The programs that are to be started now: those of the next wave, where all of the last one have
    /// joined or its time is over, and else none. All that is handed over from here on is started at
    /// once. A refused call changes nothing.
    pub fn go_on(&mut self) -> Result<CommandList, NoMemory>
        ensures wave { IfOk result (λ wave. wave ≡ map command_in (due_wave self.old)) }
        ensures gone { OnOk result (self.new ≡ gone_on self.old) }
        ensures err { OnErr result (self.new ≡ self.old) }
    {
        if !self.is_due() {
            self.begun = true;
            return Ok(CommandList::new(*self.waiting.allocator()));
        }
        self.begin()
    }
}
