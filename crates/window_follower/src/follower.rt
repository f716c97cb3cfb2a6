ghost use Rattle.std.specs.Prelude.{◌≡◌, ◌↔◌, true, false, find, option_copied, None, IfOk, IsErrOf};
ghost use Rattle.window_follower.specs.Taking.{brings};
ghost use Rattle.window_follower.specs.Windows.{is_of};
ghost use Rattle.window_follower.specs.Views.{has_id_by, kind_in, user_time_in, windows_of as windows_in};
ghost use Rattle.window_follower.specs.Follower.{Begins, Sends, Takes, gave_none, wished, wishing};
ghost use Rattle.window_follower.specs.declared.following.Following.{Following as AnyFollowing};
ghost use Rattle.window_follower.specs.declared.follower.FollowFault.TheVariants.{Lost as WasLost, Stopped as WasStopped};

use crate::atoms::EVERY_NAME;
use crate::following::Following;
use crate::{
    AskedQueue, Atoms, Followed, Kind, Mode, News, Question, RequestList, Windows, Wish,
    requests_of, views,
};
use display_messages::WindowList;
use owned_lists::NoMemory;
use std::alloc::Global;

/// What a part of the display's stream gives.
#[derive(Debug, Drop)]
pub struct Took {
    pub news: News,
    /// What is to be sent to the display, in order.
    pub requests: RequestList,
}

/// Why a follower gave nothing.
#[derive(Clone, Copy, Debug, PartialEq, Eq)]
pub enum FollowFault {
    /// Memory was wanting. The follower is spent then.
    NoMemory,
    /// The display answered what nobody had asked, or out of order: it counts as lost, and the follower
    /// is spent.
    Lost,
    /// The follower is spent: an earlier call gave nothing.
    Stopped,
}

impl Wish {
    fn question(self, root: u32) -> Question
        ensures { result ≡ wished root self }
    {
        match self {
            Wish::Close { window } => Question::Close { window },
            Wish::Show { window } => Question::Show { root, window },
            Wish::Ping { window, stamp } => Question::Ping { window, stamp },
            Wish::Mark { number } => Question::Mark { number },
        }
    }
}

impl Following {
    fn begin(alloc: Global, root: u32) -> Result<Following, NoMemory>
        ensures { IfOk result (Begins root) }
    {
        let mut asked = AskedQueue::new(alloc);
        asked.ask_names(&EVERY_NAME)?;
        asked.ask(Question::Extension)?;
        Ok(Following {
            alloc,
            root,
            atoms: Atoms::new(alloc),
            resource: None,
            mode: Mode::Unknown,
            windows: Windows::new(alloc),
            asked,
        })
    }

    /// What is to be sent to the display now.
    fn send(&mut self) -> Result<RequestList, NoMemory>
        ensures { IfOk result (λ requests. Sends self.old requests self.new) }
    {
        let questions = self.asked.send(self.alloc)?;
        requests_of(self.alloc, &self.atoms, questions.as_slice())
    }

    fn take(&mut self, bytes: &[u8]) -> Result<Took, FollowFault>
        ensures takes { IfOk result (λ took. Takes (brings bytes.now self.old) took self.new) }
        ensures lost { IsErrOf result WasLost → brings bytes.now self.old ≡ None }
        ensures goes_on { IsErrOf result WasStopped → ⊥ }
    {
        let news = match self.take_part(bytes) {
            Ok(Some(news)) => news,
            Ok(None) => return Err(FollowFault::Lost),
            Err(NoMemory) => return Err(FollowFault::NoMemory),
        };
        match self.send() {
            Ok(requests) => Ok(Took { news, requests }),
            Err(NoMemory) => Err(FollowFault::NoMemory),
        }
    }

    fn wish(&mut self, wish: Wish) -> Result<RequestList, NoMemory>
        ensures { IfOk result (λ requests. Sends (wishing wish self.old) requests self.new) }
    {
        self.ask(wish.question(self.root))?;
        self.send()
    }
}

/// Follows the windows of one screen of a display. Whoever has it sends what it gives, and brings it the
/// parts of the display's stream behind the set-up, one by one.
#[derive(Drop)]
pub struct Follower {
    following: Following,
    ended: bool,
}

impl Follower {
    /// A follower of the windows below this root, and what is sent to the display first.
    pub fn begin(alloc: Global, root: u32) -> Result<(Follower, RequestList), NoMemory>
        ensures begins { IfOk result (λ begun. (s : AnyFollowing) × Begins root s × Sends s begun.1 begun.0.following) }
        ensures lives { IfOk result (λ begun. begun.0.ended ≡ false) }
    {
        let mut following = Following::begin(alloc, root)?;
        let requests = following.send()?;
        let follower = Follower {
            following,
            ended: false,
        };
        Ok((follower, requests))
    }

    /// Takes a part of the display's stream, and gives what it says and what is to be sent.
    pub fn take(&mut self, part: &[u8]) -> Result<Took, FollowFault>
        ensures takes { IfOk result (λ took. Takes (brings part.now self.old.following) took self.new.following) }
        ensures lost { IsErrOf result WasLost → brings part.now self.old.following ≡ None }
        ensures stopped { IsErrOf result WasStopped ↔ (self.old.ended ≡ true) }
        ensures spent { self.new.ended ≡ gave_none result }
        ensures idle { IsErrOf result WasStopped → self.new ≡ self.old }
    {
        if self.ended {
            return Err(FollowFault::Stopped);
        }
        match self.following.take(part) {
            Ok(took) => Ok(took),
            Err(fault) => {
                self.ended = true;
                Err(fault)
            }
        }
    }

    /// Asks the display something, and gives what is to be sent.
    pub fn wish(&mut self, wish: Wish) -> Result<RequestList, FollowFault>
        ensures wishes { IfOk result (λ requests. Sends (wishing wish self.old.following) requests self.new.following) }
        ensures never_lost { IsErrOf result WasLost → ⊥ }
        ensures stopped { IsErrOf result WasStopped ↔ (self.old.ended ≡ true) }
        ensures spent { self.new.ended ≡ gave_none result }
        ensures idle { IsErrOf result WasStopped → self.new ≡ self.old }
    {
        if self.ended {
            return Err(FollowFault::Stopped);
        }
        match self.following.wish(wish) {
            Ok(requests) => Ok(requests),
            Err(NoMemory) => {
                self.ended = true;
                Err(FollowFault::NoMemory)
            }
        }
    }

    /// Which windows there are.
    pub fn mode(&self) -> Mode
        ensures { result ≡ self.now.following.mode }
    {
        self.following.mode
    }

    /// All windows that are followed; those that were in a list are the programs' windows, and the others
    /// say something of these.
    pub fn windows(&self) -> &[Followed]
        ensures { result.now ≡ self.now.following.windows }
    {
        self.following.windows.as_slice()
    }

    /// What is known of a window.
    pub fn get(&self, window: u32) -> Option<&Followed>
        ensures { option_copied result ≡ find (is_of window) self.now.following.windows }
    {
        self.following.windows.get(window)
    }

    /// The windows of a process, in the order in which they came.
    pub fn windows_of(&self, process: u32) -> Result<WindowList, NoMemory>
        ensures { IfOk result (λ windows. windows ≡ windows_in process self.now.following.windows) }
    {
        views::windows_of(self.following.alloc, self.windows(), process)
    }

    /// What a window counts as; none where it isn't followed.
    pub fn kind(&self, window: u32) -> Option<Kind>
        ensures { result ≡ kind_in window self.now.following.windows }
    {
        views::kind(self.windows(), window)
    }

    /// Whether this window has the ID of a session. A program that joined one has it on the window that
    /// leads its windows, or on each.
    pub fn has_session(&self, window: Option<u32>) -> bool
        ensures { result ≡ has_id_by self.now.following.windows window }
    {
        views::has_id(self.windows(), window)
    }

    /// When the user last did something in a window, by the display's clock in milliseconds.
    pub fn user_time(&self, window: u32) -> Option<u32>
        ensures { result ≡ user_time_in window self.now.following.windows }
    {
        views::user_time(self.windows(), window)
    }
}
