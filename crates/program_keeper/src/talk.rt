ghost use Rattle.std.specs.Prelude.{◌≡◌, None, find, is_some, IfOk, OnOk};
ghost use Rattle.program_keeper.specs.Windows.{next_main as next_main_spec};
ghost use Rattle.program_keeper.specs.Talking.{MayMove, asked_first, asking, awaiting, behind_answer, disturbed, is_awaiting as is_awaiting_spec, is_front as is_front_spec, passed, ping_due, showing, turn_taken, has_new_title as has_new_title_spec, is_known as is_known_spec, stands as stands_spec, start, target as target_spec, was_touched as was_touched_spec};

use crate::windows::{Window, WindowNumbers, main_window, next_main, numbers_of};
use owned_lists::NoMemory;
use std::alloc::Global;

/// For how many milliseconds nothing may change behind an answer of the user.
const CALM: u64 = 4_000;

/// For how many milliseconds nothing may change behind a key or a button in the window itself.
const LONG_CALM: u64 = 10_000;

/// After how many milliseconds a window that shows nothing is brought before the user.
const PATIENCE: u64 = 5_000;

/// How often a window is asked again whose title has changed.
const AGAIN_LIMIT: u32 = 3;

/// How many milliseconds lie between two pings.
const PING_PERIOD: u64 = 1_000;

/// How a program goes on while it has the token.
#[derive(Clone, Copy, Debug, PartialEq, Eq)]
pub enum Move {
    /// It has no window that the user would miss.
    Agree,
    /// The user keeps a window.
    Refuse,
    /// The window of this number is to be asked to close.
    Close(u32),
    /// The window of this number is to be brought before the user.
    Show(u32),
    /// The user is waited for.
    Wait,
}

/// How far the talk with a program's user is.
#[derive(Debug, Drop)]
pub struct UserTalk {
    /// The window that was asked to close last, as it was when it was asked first.
    asked: Option<Window>,
    /// The windows that were there then.
    known: WindowNumbers,
    /// A dialog was seen since then.
    seen: bool,
    /// The window that was brought before the user last.
    front: Option<u32>,
    /// For how many milliseconds nothing has changed while the program answered.
    calm: u64,
    /// How many milliseconds ago the window was asked last.
    waited: u64,
    /// How often it was asked again.
    again: u32,
}

impl UserTalk {
    /// A talk that begins, as the program gets the token; this takes no memory.
    pub fn new(alloc: Global) -> UserTalk
        ensures { result ≡ start }
    {
        UserTalk {
            asked: None,
            known: WindowNumbers::new(alloc),
            seen: false,
            front: None,
            calm: 0,
            waited: 0,
            again: 0,
        }
    }

    /// Whether a window was asked to close in this talk.
    pub fn has_asked(&self) -> bool
        ensures { result ≡ is_some self.now.asked }
    {
        self.asked.is_some()
    }

    /// Whether the window of this number was there as the last one was asked.
    fn is_known(&self, number: u32) -> bool
        ensures { result ≡ is_known_spec self.now.known number }
    {
        self.known.as_slice().iter().any(|known| *known == number)
    }

    /// Whether a window stands for a dialog of the program with its user.
    fn stands(&self, window: Window) -> bool
        ensures { result ≡ stands_spec self.now window }
    {
        let asks = window.kind.is_aux() && window.modal;
        if self.asked.is_none() {
            return asks;
        }
        let is_shown = window.kind.is_main() || window.kind.is_aux();
        asks || is_shown && !self.is_known(window.number)
    }

    /// The first window that stands for a dialog.
    fn dialog(&self, windows: &[Window]) -> Option<Window>
        ensures { result ≡ find (stands_spec self.now) windows.now }
    {
        windows.iter().copied().find(|window| self.stands(*window))
    }

    /// The window that was asked, where it still stands.
    fn target(&self, windows: &[Window]) -> Option<Window>
        ensures { result ≡ target_spec self.now windows.now }
    {
        match self.asked {
            Some(asked) => main_window(windows, asked.number),
            None => None,
        }
    }

    /// Whether a window has another title than as it was asked.
    fn has_new_title(&self, window: Window) -> bool
        ensures { result ≡ has_new_title_spec self.now.asked window }
    {
        match self.asked {
            Some(asked) => asked.title != window.title,
            None => false,
        }
    }

    /// Whether somebody pressed a key or a button in a window since it was asked.
    fn was_touched(&self, window: Window) -> bool
        ensures { result ≡ was_touched_spec self.now.asked window }
    {
        match self.asked {
            Some(asked) => asked.touched != window.touched,
            None => false,
        }
    }

    /// Whether the window of this number was brought before the user last.
    fn is_front(&self, number: u32) -> bool
        ensures { result ≡ is_front_spec number self.now.front }
    {
        match self.front {
            Some(front) => front == number,
            None => false,
        }
    }

    /// Whether the window that was asked stands, and no dialog does.
    fn is_awaiting(&self, windows: &[Window]) -> bool
        ensures { result ≡ is_awaiting_spec self.now windows.now }
    {
        self.dialog(windows).is_none() && self.target(windows).is_some()
    }

    /// Something of the program's windows has changed.
    pub fn disturb(&mut self)
        ensures { self.new ≡ disturbed self.old }
    {
        self.calm = 0;
    }

    /// So many milliseconds went by over these windows, and the program answered its pings in them, or
    /// knows none.
    pub fn pass(&mut self, windows: &[Window], elapsed: u32, answered: bool)
        ensures { self.new ≡ passed windows.now elapsed answered self.old }
    {
        if answered && self.is_awaiting(windows) {
            self.calm = self.calm.saturating_add(elapsed as u64);
        }
        self.waited = self.waited.saturating_add(elapsed as u64);
    }

    /// The number of the window that is to be pinged as so many milliseconds go by: one each second,
    /// where a window that knows pings was asked, and stands without a dialog.
    pub fn ping(&self, windows: &[Window], elapsed: u32) -> Option<u32>
        ensures { result ≡ ping_due self.now windows.now elapsed }
    {
        let later = self.waited.saturating_add(elapsed as u64);
        let is_second = self.waited / PING_PERIOD < later / PING_PERIOD;
        if !self.is_awaiting(windows) || !is_second {
            return None;
        }
        match self.target(windows) {
            Some(window) => {
                if window.pings {
                    Some(window.number)
                } else {
                    None
                }
            }
            None => None,
        }
    }

    /// Brings a window before the user, where it isn't there already.
    fn show(&mut self, number: u32) -> Move
        ensures shown { result ≡ (showing number self.old).move }
        ensures talk { self.new ≡ (showing number self.old).next }
    {
        let is_there = self.is_front(number);
        self.front = Some(number);
        if is_there {
            Move::Wait
        } else {
            Move::Show(number)
        }
    }

    /// Asks a window for the first time.
    fn ask(&mut self, alloc: Global, windows: &[Window], window: Window) -> Result<Move, NoMemory>
        ensures asked { IfOk result (λ one. one ≡ Move.Close window.number) }
        ensures talk { OnOk result (self.new ≡ asked_first window windows.now) }
    {
        self.known = numbers_of(alloc, windows)?;
        self.asked = Some(window);
        self.seen = false;
        self.front = None;
        self.calm = 0;
        self.waited = 0;
        self.again = 0;
        Ok(Move::Close(window.number))
    }

    /// Asks the next window, where there is one.
    fn ask_next(&mut self, alloc: Global, windows: &[Window]) -> Result<Move, NoMemory>
        ensures asked { IfOk result (λ one.
            one ≡ (asking (next_main_spec windows.now None windows.now) windows.now self.old).move) }
        ensures talk { OnOk result (self.new
            ≡ (asking (next_main_spec windows.now None windows.now) windows.now self.old).next) }
    {
        match next_main(windows) {
            Some(window) => self.ask(alloc, windows, window),
            None => Ok(Move::Agree),
        }
    }

    /// A window stands behind an answer of the user.
    fn weigh_answer(&mut self, window: Window) -> Move
        ensures moved { result ≡ (behind_answer window self.old).move }
        ensures talk { self.new ≡ (behind_answer window self.old).next }
    {
        if self.calm < CALM {
            return Move::Wait;
        }
        if !self.has_new_title(window) || self.again >= AGAIN_LIMIT {
            return Move::Refuse;
        }
        self.calm = 0;
        self.waited = 0;
        self.again += 1;
        Move::Close(window.number)
    }

    /// The window that was asked stands, and no dialog does.
    fn await_answer(&mut self, window: Window) -> Move
        ensures moved { result ≡ (awaiting window self.old).move }
        ensures talk { self.new ≡ (awaiting window self.old).next }
    {
        if self.seen || self.has_new_title(window) {
            return self.weigh_answer(window);
        }
        if self.was_touched(window) {
            return if self.calm < LONG_CALM {
                Move::Wait
            } else {
                Move::Refuse
            };
        }
        if self.waited < PATIENCE {
            return Move::Wait;
        }
        self.show(window.number)
    }

    /// Goes on with the talk over these windows. Want of memory spoils the talk.
    pub fn take_turn(&mut self, alloc: Global, windows: &[Window]) -> Result<Move, NoMemory>
        ensures moved { IfOk result (λ one. one ≡ (turn_taken windows.now self.old).move) }
        ensures talk { OnOk result (self.new ≡ (turn_taken windows.now self.old).next) }
        // A window is asked to close, and the program agrees or refuses, only where that may be.
        ensures may { IfOk result (λ one. MayMove self.old windows.now one) }
    {
        if let Some(dialog) = self.dialog(windows) {
            self.seen = true;
            return Ok(self.show(dialog.number));
        }
        match self.target(windows) {
            Some(window) => Ok(self.await_answer(window)),
            None => self.ask_next(alloc, windows),
        }
    }
}
