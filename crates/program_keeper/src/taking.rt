use crate::acts::{KeeperAct, KeeperActs};
use crate::progress::Progress;
use crate::windows::WindowList;
use owned_lists::NoMemory;

impl Progress {
    ghost use Rattle.std.specs.Prelude.{◌≡◌, ◌++◌, IfOk, OnOk};
    ghost use Rattle.program_keeper.specs.Doing.{keeper_of};
    ghost use Rattle.program_keeper.specs.Script.{ended, failed, passing, ping_of, pinging, shown, ticked};

    /// Its windows have changed, and are these.
    pub fn show_windows(&mut self, windows: WindowList) -> Result<KeeperActs, NoMemory>
        ensures acts { IfOk result (λ acts. acts ≡ (shown windows (keeper_of self.old)).line) }
        ensures keeper { OnOk result (keeper_of self.new ≡ (shown windows (keeper_of self.old)).next) }
        ensures splitter { self.new.core.splitter ≡ self.old.core.splitter }
    {
        let mut acts = KeeperActs::new(self.alloc);
        self.program.note_windows(windows);
        self.settle(&mut acts)?;
        Ok(acts)
    }

    /// It has ended.
    pub fn take_end(&mut self) -> Result<KeeperActs, NoMemory>
        ensures acts { IfOk result (λ acts. acts ≡ (ended (keeper_of self.old)).line) }
        ensures keeper { OnOk result (keeper_of self.new ≡ (ended (keeper_of self.old)).next) }
        ensures splitter { self.new.core.splitter ≡ self.old.core.splitter }
    {
        let mut acts = KeeperActs::new(self.alloc);
        self.program.note_end();
        self.settle(&mut acts)?;
        Ok(acts)
    }

    /// It couldn't be started.
    pub fn take_failure(&mut self) -> Result<KeeperActs, NoMemory>
        ensures acts { IfOk result (λ acts. acts ≡ (failed (keeper_of self.old)).line) }
        ensures keeper { OnOk result (keeper_of self.new ≡ (failed (keeper_of self.old)).next) }
        ensures splitter { self.new.core.splitter ≡ self.old.core.splitter }
    {
        let mut acts = KeeperActs::new(self.alloc);
        self.program.note_failure();
        self.settle(&mut acts)?;
        Ok(acts)
    }

    /// The number of the window that is to be pinged, as so many milliseconds go by.
    fn due_ping(&self, elapsed: u32) -> Option<u32>
        ensures { result ≡ ping_of elapsed (keeper_of self.now) }
    {
        if self.is_talking() {
            self.program.ping(elapsed)
        } else {
            None
        }
    }

    /// Has the window pinged that is waited for.
    fn ping(&mut self, elapsed: u32, acts: &mut KeeperActs) -> Result<(), NoMemory>
        ensures acts { OnOk result (acts.new ≡ acts.old ++ (pinging elapsed (keeper_of self.old)).line) }
        ensures keeper { keeper_of self.new ≡ (pinging elapsed (keeper_of self.old)).next }
        ensures splitter { self.new.core.splitter ≡ self.old.core.splitter }
    {
        match self.due_ping(elapsed) {
            Some(number) => acts.push(KeeperAct::Ping(number)),
            None => Ok(()),
        }
    }

    /// So many milliseconds went by; a program whose time to end is over is ended.
    fn pass(&mut self, elapsed: u32, answered: bool, acts: &mut KeeperActs) -> Result<(), NoMemory>
        ensures acts { OnOk result
            (acts.new ≡ acts.old ++ (passing elapsed answered (keeper_of self.old)).line) }
        ensures keeper { OnOk result
            (keeper_of self.new ≡ (passing elapsed answered (keeper_of self.old)).next) }
        ensures splitter { self.new.core.splitter ≡ self.old.core.splitter }
    {
        let is_due = self.program.is_term_due(elapsed);
        let idle = self.is_idle();
        self.program.note_time(idle, elapsed, answered);
        if is_due {
            acts.push(KeeperAct::Term)
        } else {
            Ok(())
        }
    }

    /// So many milliseconds went by, in which the program answered its pings or not.
    pub fn tick(&mut self, elapsed: u32, answered: bool) -> Result<KeeperActs, NoMemory>
        ensures acts { IfOk result (λ acts.
            acts ≡ (ticked elapsed answered (keeper_of self.old)).line) }
        ensures keeper { OnOk result
            (keeper_of self.new ≡ (ticked elapsed answered (keeper_of self.old)).next) }
        ensures splitter { self.new.core.splitter ≡ self.old.core.splitter }
    {
        let mut acts = KeeperActs::new(self.alloc);
        self.ping(elapsed, &mut acts)?;
        self.pass(elapsed, answered, &mut acts)?;
        self.settle(&mut acts)?;
        Ok(acts)
    }
}
