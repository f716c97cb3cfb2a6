ghost use Rattle.std.specs.Prelude.{◌≡◌, ◌≤◌, ◌↔◌, length, true, IfOk, IsErrOf};
ghost use Rattle.ice_messages.specs.declared.message.IceMessage.TheVariants.{ByteOrder};
ghost use Rattle.ice_values.specs.declared.numbers.Endian.TheVariants.{Lsb};
ghost use Rattle.xsmp_properties.specs.Tables.{IsTableFull};
ghost use Rattle.client_engine.specs.Driving.{Run};
ghost use Rattle.client_engine.specs.Messages.{spelled};
ghost use Rattle.protocol_messages.specs.declared.message.Message.TheVariants.{Ice};
ghost use Rattle.program_keeper.specs.Script.{Keeper, ended, failed, in_run, piece_heard, shown, ticked};
ghost use Rattle.program_keeper.specs.Standing.{Gives, IsRun, gave_none, start_stand};
ghost use Rattle.program_keeper.specs.declared.acts.KeeperFault.TheVariants.{Stopped as WasStopped};

use crate::acts::{KeeperActs, KeeperFault};
use crate::heeding::Keeping;
use crate::progress::Progress;
use crate::windows::WindowList;
use client_engine::{greeting, spell, take_piece};
use ice_cookie::Cookie;
use ice_values::{Array8, PropertyList};
use owned_lists::{NoMemory, Octets};
use std::alloc::Global;
use std::marker::Model;

/// The client of a session for one program that knows none (XSMP, chapter 8; ICE, chapter 6). Whoever
/// has it does what it gives, and tells it what comes of the manager, the program's windows and time.
#[derive(Drop)]
pub struct ProgramKeeper {
    progress: Progress,
    /// Memory was wanting.
    starved: bool,
}

impl Model for ProgramKeeper {
    ghost use Rattle.program_keeper.specs.Doing.{stand_of};
    ghost use Rattle.program_keeper.specs.Standing.{Stand};

    ghost Value = { Stand };

    ghost view = { λ keeper. stand_of keeper.progress keeper.starved };
}

/// The bytes of ByteOrder, which a client sends at once.
fn first_bytes(alloc: Global) -> Result<Octets, NoMemory>
    ensures { IfOk result (λ bytes. bytes ≡ spelled (Ice (ByteOrder Lsb))) }
{
    let mut bytes = Octets::new(alloc);
    spell(&greeting(), &mut bytes)?;
    Ok(bytes)
}

impl ProgramKeeper {
    /// The keeper of a program that is there with these windows, and what it sends at once. It will
    /// register with this ID of an earlier session, or with none, and as it saves it sets these
    /// properties, which fit into a table.
    pub fn new(
        alloc: Global,
        cookie: Cookie,
        previous: Array8,
        set: PropertyList,
        windows: WindowList,
    ) -> Result<(ProgramKeeper, Octets), NoMemory>
        requires previous { length previous ≤ 512 }
        requires few { ¬ (IsTableFull set) }
        ensures keeper { IfOk result (λ begun. begun.0 ≡ start_stand cookie previous set windows) }
        ensures first { IfOk result (λ begun. begun.1 ≡ spelled (Ice (ByteOrder Lsb))) }
    {
        let bytes = first_bytes(alloc)?;
        let progress = Progress::begin(alloc, cookie, previous, set, windows)?;
        let keeper = ProgramKeeper {
            progress,
            starved: false,
        };
        Ok((keeper, bytes))
    }

    /// Takes a piece of the manager's stream, and gives what is to be done about it, in order.
    pub fn hear(&mut self, piece: &[u8]) -> Result<KeeperActs, KeeperFault>
        // For whatever the run has brought so far, these are the acts that the script has for this piece.
        ensures hears { IfOk result (λ acts. (run : Run Keeper) → IsRun run self.old →
            Gives acts (piece_heard run piece.now) self.new) }
        ensures stopped { IsErrOf result WasStopped ↔ (self.old.starved ≡ true) }
        ensures spent { self.new.starved ≡ gave_none result }
        ensures idle { IsErrOf result WasStopped → self.new ≡ self.old }
    {
        if self.starved {
            return Err(KeeperFault::Stopped);
        }
        let mut acts = KeeperActs::new(self.progress.alloc);
        match take_piece(&mut Keeping, &mut acts, &mut self.progress, piece) {
            Ok(()) => Ok(acts),
            Err(NoMemory) => {
                self.starved = true;
                Err(KeeperFault::NoMemory)
            }
        }
    }

    /// The program's windows are these now; gives what is to be done. It is told each time something of
    /// them has changed, and then alone: the calm behind an answer of the user begins anew with it.
    pub fn show(&mut self, windows: WindowList) -> Result<KeeperActs, KeeperFault>
        ensures shown { IfOk result (λ acts. (run : Run Keeper) → IsRun run self.old →
            Gives acts (in_run (shown windows) run) self.new) }
        ensures stopped { IsErrOf result WasStopped ↔ (self.old.starved ≡ true) }
        ensures spent { self.new.starved ≡ gave_none result }
        ensures idle { IsErrOf result WasStopped → self.new ≡ self.old }
    {
        if self.starved {
            return Err(KeeperFault::Stopped);
        }
        match self.progress.show_windows(windows) {
            Ok(acts) => Ok(acts),
            Err(NoMemory) => {
                self.starved = true;
                Err(KeeperFault::NoMemory)
            }
        }
    }

    /// The program has ended; gives what is to be done. While one that was started again has no window
    /// yet, this is taken for the end of the one before.
    pub fn end(&mut self) -> Result<KeeperActs, KeeperFault>
        ensures ended { IfOk result (λ acts. (run : Run Keeper) → IsRun run self.old →
            Gives acts (in_run ended run) self.new) }
        ensures stopped { IsErrOf result WasStopped ↔ (self.old.starved ≡ true) }
        ensures spent { self.new.starved ≡ gave_none result }
        ensures idle { IsErrOf result WasStopped → self.new ≡ self.old }
    {
        if self.starved {
            return Err(KeeperFault::Stopped);
        }
        match self.progress.take_end() {
            Ok(acts) => Ok(acts),
            Err(NoMemory) => {
                self.starved = true;
                Err(KeeperFault::NoMemory)
            }
        }
    }

    /// The program couldn't be started; gives what is to be done.
    pub fn fail_start(&mut self) -> Result<KeeperActs, KeeperFault>
        ensures failed { IfOk result (λ acts. (run : Run Keeper) → IsRun run self.old →
            Gives acts (in_run failed run) self.new) }
        ensures stopped { IsErrOf result WasStopped ↔ (self.old.starved ≡ true) }
        ensures spent { self.new.starved ≡ gave_none result }
        ensures idle { IsErrOf result WasStopped → self.new ≡ self.old }
    {
        if self.starved {
            return Err(KeeperFault::Stopped);
        }
        match self.progress.take_failure() {
            Ok(acts) => Ok(acts),
            Err(NoMemory) => {
                self.starved = true;
                Err(KeeperFault::NoMemory)
            }
        }
    }

    /// So many milliseconds went by since the last tick; gives what is to be done. The program answered
    /// where no ping is open, as of one that knows none.
    pub fn tick(&mut self, elapsed: u32, answered: bool) -> Result<KeeperActs, KeeperFault>
        ensures ticked { IfOk result (λ acts. (run : Run Keeper) → IsRun run self.old →
            Gives acts (in_run (ticked elapsed answered) run) self.new) }
        ensures stopped { IsErrOf result WasStopped ↔ (self.old.starved ≡ true) }
        ensures spent { self.new.starved ≡ gave_none result }
        ensures idle { IsErrOf result WasStopped → self.new ≡ self.old }
    {
        if self.starved {
            return Err(KeeperFault::Stopped);
        }
        match self.progress.tick(elapsed, answered) {
            Ok(acts) => Ok(acts),
            Err(NoMemory) => {
                self.starved = true;
                Err(KeeperFault::NoMemory)
            }
        }
    }
}
