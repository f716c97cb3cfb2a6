ghost use Rattle.std.specs.Prelude.{◌≡◌, IfOk, OnOk};
ghost use Rattle.program_keeper.specs.Programs.{agreed, begun, cancelled, died, fresh, has_main as has_main_spec, is_closed as is_closed_spec, is_ended_at_once as is_ended_at_once_spec, is_gone as is_gone_spec, is_joined as is_joined_spec, is_leaving as is_leaving_spec, is_open as is_open_spec, is_over as is_over_spec, is_restart as is_restart_spec, is_starting as is_starting_spec, left, life_later as life_later_spec, may_leave as may_leave_spec, noted_end, noted_failure, noted_time, noted_windows, opened, stay_later, talked};
ghost use Rattle.program_keeper.specs.Talking.{ping_due, turn_taken};

use crate::talk::{Move, UserTalk};
use crate::windows::{Window, WindowList};
use owned_lists::NoMemory;
use std::alloc::Global;

/// For how many milliseconds a program has no window until it counts as one that has gone.
const BARE_LIMIT: u64 = 5_000;

/// For how many milliseconds the window of a program that was started is waited for.
const START_LIMIT: u64 = 30_000;

/// After how many milliseconds a program is ended that closed its windows by itself.
const END_DELAY: u64 = 5_000;

/// Whether the program is there.
#[derive(Clone, Copy, Debug, PartialEq, Eq)]
pub enum Life {
    Here,
    /// It was started, and has no window yet.
    Starting,
    /// It has ended, or counts as ended.
    Gone,
}

/// How the program went into the logout.
#[derive(Clone, Copy, Debug, PartialEq, Eq)]
pub enum Outcome {
    /// It wasn't asked, or stays.
    Open,
    /// It has agreed, and none of its windows was asked to close.
    Agreed,
    /// It has agreed, and its windows were asked to close.
    Closed,
}

/// How far the keeper is with the session's end.
#[derive(Clone, Copy, Debug, PartialEq, Eq)]
pub enum Stay {
    /// It is in the session.
    Joined,
    /// It was told to die so many milliseconds ago, and leaves the program time to end.
    Ending(u64),
    /// It was told to die, and has ended the program.
    Ended,
    /// It has left the session.
    Left,
}

/// What a keeper knows of its program.
#[derive(Debug, Drop)]
pub struct Program {
    windows: WindowList,
    life: Life,
    /// For how many milliseconds it has had no window.
    alone: u64,
    talk: UserTalk,
    outcome: Outcome,
    stay: Stay,
}

impl Life {
    fn is_gone(self) -> bool
        ensures { result ≡ is_gone_spec self }
    {
        match self {
            Life::Here => false,
            Life::Starting => false,
            Life::Gone => true,
        }
    }

    fn is_starting(self) -> bool
        ensures { result ≡ is_starting_spec self }
    {
        match self {
            Life::Here => false,
            Life::Starting => true,
            Life::Gone => false,
        }
    }
}

impl Stay {
    /// Whether a program that has gone is to leave the session.
    fn may_leave(self, idle: bool) -> bool
        ensures { result ≡ may_leave_spec idle self }
    {
        match self {
            Stay::Joined => idle,
            Stay::Ending(_) => true,
            Stay::Ended => true,
            Stay::Left => false,
        }
    }

    /// Whether the program's time to end is over with so many milliseconds more.
    fn is_over(self, elapsed: u32) -> bool
        ensures { result ≡ is_over_spec elapsed self }
    {
        match self {
            Stay::Joined => false,
            Stay::Ending(waited) => waited.saturating_add(elapsed as u64) >= END_DELAY,
            Stay::Ended => false,
            Stay::Left => false,
        }
    }

    fn is_joined(self) -> bool
        ensures { result ≡ is_joined_spec self }
    {
        match self {
            Stay::Joined => true,
            Stay::Ending(_) => false,
            Stay::Ended => false,
            Stay::Left => false,
        }
    }

    /// So many milliseconds later.
    fn later(self, elapsed: u32) -> Stay
        ensures { result ≡ stay_later elapsed self }
    {
        match self {
            Stay::Joined => Stay::Joined,
            Stay::Ending(waited) => {
                let waited = waited.saturating_add(elapsed as u64);
                if waited >= END_DELAY {
                    Stay::Ended
                } else {
                    Stay::Ending(waited)
                }
            }
            Stay::Ended => Stay::Ended,
            Stay::Left => Stay::Left,
        }
    }
}

impl Outcome {
    fn is_open(self) -> bool
        ensures { result ≡ is_open_spec self }
    {
        match self {
            Outcome::Open => true,
            Outcome::Agreed => false,
            Outcome::Closed => false,
        }
    }

    fn is_closed(self) -> bool
        ensures { result ≡ is_closed_spec self }
    {
        match self {
            Outcome::Open => false,
            Outcome::Agreed => false,
            Outcome::Closed => true,
        }
    }
}

/// Whether a window is a main one.
fn has_main(windows: &[Window]) -> bool
    ensures { result ≡ has_main_spec windows.now }
{
    windows.iter().any(|window| window.kind.is_main())
}

impl Program {
    /// A program that is there, with these windows, in a session.
    pub fn new(alloc: Global, windows: WindowList) -> Program
        ensures { result ≡ fresh windows }
    {
        Program {
            windows,
            life: Life::Here,
            alone: 0,
            talk: UserTalk::new(alloc),
            outcome: Outcome::Open,
            stay: Stay::Joined,
        }
    }

    pub fn life(&self) -> Life
        ensures { result ≡ self.now.life }
    {
        self.life
    }

    /// Whether it is in the session, and wasn't told to die.
    pub fn is_joined(&self) -> bool
        ensures { result ≡ is_joined_spec self.now.stay }
    {
        self.stay.is_joined()
    }

    /// Whether the program is to leave the session: it has gone, and owes no answer.
    pub fn is_leaving(&self, idle: bool) -> bool
        ensures { result ≡ is_leaving_spec self.now idle }
    {
        self.life.is_gone() && self.stay.may_leave(idle)
    }

    /// Whether the program is to be started again, as a logout was cancelled.
    pub fn is_restart(&self) -> bool
        ensures { result ≡ is_restart_spec self.now }
    {
        self.outcome.is_closed() && (self.life.is_gone() || !has_main(self.windows.as_slice()))
    }

    /// Whether the program is to be ended at once, as it is told to die.
    pub fn is_ended_at_once(&self) -> bool
        ensures { result ≡ is_ended_at_once_spec self.now }
    {
        self.outcome.is_open() && !self.life.is_gone()
    }

    /// Whether the program is to be ended, as so many milliseconds more went by.
    pub fn is_term_due(&self, elapsed: u32) -> bool
        ensures { result ≡ is_over_spec elapsed self.now.stay }
    {
        self.stay.is_over(elapsed)
    }

    /// The window that is to be pinged, as so many milliseconds go by.
    pub fn ping(&self, elapsed: u32) -> Option<u32>
        ensures { result ≡ ping_due self.now.talk self.now.windows elapsed }
    {
        self.talk.ping(self.windows.as_slice(), elapsed)
    }

    /// Its windows have changed, and are these.
    pub fn note_windows(&mut self, windows: WindowList)
        ensures { self.new ≡ noted_windows windows self.old }
    {
        self.talk.disturb();
        if !windows.as_slice().is_empty() {
            self.alone = 0;
            if self.life.is_starting() {
                self.life = Life::Here;
            }
        }
        self.windows = windows;
    }

    /// It has ended.
    pub fn note_end(&mut self)
        ensures { self.new ≡ noted_end self.old }
    {
        if !(self.stay.is_joined() && self.life.is_starting()) {
            self.life = Life::Gone;
        }
    }

    /// It couldn't be started.
    pub fn note_failure(&mut self)
        ensures { self.new ≡ noted_failure self.old }
    {
        if self.life.is_starting() {
            self.life = Life::Gone;
        }
    }

    /// Its life, as it has had no window for so long.
    fn life_later(&self, idle: bool) -> Life
        ensures { result ≡ life_later_spec idle self.now.alone self.now.life }
    {
        match self.life {
            Life::Here => {
                if idle && self.alone >= BARE_LIMIT {
                    Life::Gone
                } else {
                    Life::Here
                }
            }
            Life::Starting => {
                if self.alone >= START_LIMIT {
                    Life::Gone
                } else {
                    Life::Starting
                }
            }
            Life::Gone => Life::Gone,
        }
    }

    /// So many milliseconds went by, in which it answered its pings or not.
    pub fn note_time(&mut self, idle: bool, elapsed: u32, answered: bool)
        ensures { self.new ≡ noted_time idle elapsed answered self.old }
    {
        self.talk.pass(self.windows.as_slice(), elapsed, answered);
        self.alone = if self.life.is_starting() || self.windows.as_slice().is_empty() {
            self.alone.saturating_add(elapsed as u64)
        } else {
            0
        };
        self.life = self.life_later(idle);
        self.stay = self.stay.later(elapsed);
    }

    /// It is asked to save, and nothing is known of this logout yet.
    pub fn open(&mut self)
        ensures { self.new ≡ opened self.old }
    {
        self.outcome = Outcome::Open;
    }

    /// It has the token.
    pub fn begin_talk(&mut self, alloc: Global)
        ensures { self.new ≡ begun self.old }
    {
        self.talk = UserTalk::new(alloc);
    }

    /// Goes on with the talk.
    pub fn take_turn(&mut self, alloc: Global) -> Result<Move, NoMemory>
        ensures moved { IfOk result (λ one. one ≡ (turn_taken self.old.windows self.old.talk).move) }
        ensures program { OnOk result (self.new ≡ talked self.old) }
    {
        self.talk.take_turn(alloc, self.windows.as_slice())
    }

    /// It agrees to the logout.
    pub fn agree(&mut self)
        ensures { self.new ≡ agreed self.old }
    {
        self.outcome = if self.talk.has_asked() {
            Outcome::Closed
        } else {
            Outcome::Agreed
        };
    }

    /// The logout was cancelled, and the program is started again, where that is due.
    pub fn cancel(&mut self)
        ensures { self.new ≡ cancelled self.old }
    {
        if self.is_restart() {
            self.life = Life::Starting;
            self.alone = 0;
        }
        self.outcome = Outcome::Open;
    }

    /// It is told to die.
    pub fn die(&mut self)
        ensures { self.new ≡ died self.old }
    {
        self.stay = if self.outcome.is_open() {
            Stay::Ended
        } else {
            Stay::Ending(0)
        };
    }

    /// It has left the session.
    pub fn leave(&mut self)
        ensures { self.new ≡ left self.old }
    {
        self.stay = Stay::Left;
    }
}
