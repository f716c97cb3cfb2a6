ghost use Rattle.std.specs.Prelude.{◌≡◌, OnOk};
ghost use Rattle.window_follower.specs.declared.question.Question.TheVariants.{Watch};
ghost use Rattle.window_follower.specs.Following.{asking, asking_about, asking_all, begun_looking, come as come_so, come_all as all_come, companion_in, following, gone as gone_so, heard_of, is_check as checks, led, look_again as looks_again, looked, process_questions, said, timed};

use crate::atoms::WINDOW_PROPERTIES;
use crate::{
    AskedQueue, Atoms, Fact, Mode, NumberProperty, Question, RootProperty, TextProperty,
    WindowProperty, Windows,
};
use display_messages::{PROPERTY_CHANGE, STRUCTURE_NOTIFY, SUBSTRUCTURE_NOTIFY};
use owned_lists::NoMemory;
use std::alloc::Global;

/// What the display has said so far, and what it is asked.
#[derive(Drop)]
pub struct Following {
    pub(crate) alloc: Global,
    pub(crate) root: u32,
    pub(crate) atoms: Atoms,
    /// The opcode of X-Resource 1.2.
    pub(crate) resource: Option<u8>,
    pub(crate) mode: Mode,
    pub(crate) windows: Windows,
    pub(crate) asked: AskedQueue,
}

impl Following {
    pub(crate) fn ask(&mut self, question: Question) -> Result<(), NoMemory>
        ensures { OnOk result (self.new ≡ asking question self.old) }
    {
        self.asked.ask(question)
    }

    /// Looks who the window manager is.
    pub(crate) fn look(&mut self) -> Result<(), NoMemory>
        ensures { OnOk result (self.new ≡ looked self.old) }
    {
        self.ask(Question::Root {
            window: self.root,
            property: RootProperty::Check,
        })
    }

    /// Hears of the root from here on, and looks who the window manager is.
    pub(crate) fn begin_looking(&mut self) -> Result<(), NoMemory>
        ensures { OnOk result (self.new ≡ begun_looking self.old) }
    {
        self.ask(Question::Watch {
            window: self.root,
            events: PROPERTY_CHANGE + SUBSTRUCTURE_NOTIFY,
        })?;
        self.look()
    }

    /// Looks again which windows there are, where no list says so.
    pub(crate) fn look_again(&mut self, heard: u32) -> Result<(), NoMemory>
        ensures { OnOk result (self.new ≡ looks_again heard self.old) }
    {
        if heard != self.root {
            return Ok(());
        }
        match self.mode {
            Mode::Unknown => Ok(()),
            Mode::Listed { .. } => Ok(()),
            Mode::Stated => self.ask(Question::Events { window: self.root }),
            Mode::Bare => self.ask(Question::Events { window: self.root }),
        }
    }

    fn watch(&mut self, window: u32) -> Result<(), NoMemory>
        ensures { OnOk result (self.new ≡ asking (Watch window 4325376) self.old) }
    {
        self.ask(Question::Watch {
            window,
            events: PROPERTY_CHANGE + STRUCTURE_NOTIFY,
        })
    }

    fn ask_process(&mut self, window: u32) -> Result<(), NoMemory>
        ensures { OnOk result (self.new ≡ asking_all (process_questions self.old.resource window) self.old) }
    {
        match self.resource {
            Some(opcode) => self.ask(Question::Process { opcode, window }),
            None => Ok(()),
        }
    }

    /// Asks for these properties of a window, once its changes are heard, and for its process.
    fn ask_about(&mut self, window: u32, properties: &[WindowProperty]) -> Result<(), NoMemory>
        ensures { OnOk result (self.new ≡ asking_about window properties.now self.old) }
    {
        self.watch(window)?;
        self.asked.ask_properties(window, properties)?;
        self.ask_process(window)
    }

    fn follow(&mut self, window: u32) -> Result<(), NoMemory>
        ensures { OnOk result (self.new ≡ following window self.old) }
    {
        if self.windows.is_followed(window) {
            return Ok(());
        }
        self.windows.follow(window)
    }

    /// A list has a window, or it was found below the root.
    pub(crate) fn come(&mut self, window: u32) -> Result<(), NoMemory>
        ensures { OnOk result (self.new ≡ come_so window self.old) }
    {
        if window == 0 || window == self.root || self.windows.is_listed(window) {
            return Ok(());
        }
        self.follow(window)?;
        self.windows.mark(window);
        self.ask_about(window, &WINDOW_PROPERTIES)
    }

    pub(crate) fn come_all(&mut self, windows: &[u32]) -> Result<(), NoMemory>
        ensures { OnOk result (self.new ≡ all_come windows.now self.old) }
    {
        for window in windows {
            self.come(*window)?;
        }
        Ok(())
    }

    /// A window leads the windows of a program.
    fn lead(&mut self, window: u32) -> Result<(), NoMemory>
        ensures { OnOk result (self.new ≡ led window self.old) }
    {
        if window == self.root {
            return Ok(());
        }
        self.follow(window)?;
        self.ask_about(
            window,
            &[
                WindowProperty::Text(TextProperty::ClientId),
                WindowProperty::Numbers(NumberProperty::Process),
            ],
        )
    }

    /// A window has the user time of another one.
    fn time(&mut self, window: u32) -> Result<(), NoMemory>
        ensures { OnOk result (self.new ≡ timed window self.old) }
    {
        if window == self.root {
            return Ok(());
        }
        self.follow(window)?;
        self.ask_about(window, &[WindowProperty::Numbers(NumberProperty::UserTime)])
    }

    /// Something was heard of a window that is followed.
    fn learn(&mut self, window: u32, fact: Fact) -> Result<(), NoMemory>
        ensures { OnOk result (self.new ≡ said window fact self.old) }
    {
        let other = companion_of(&fact);
        self.windows.learn(window, fact);
        match other {
            Companion::None => Ok(()),
            Companion::Leader(window) => self.lead(window),
            Companion::UserTime(window) => self.time(window),
        }
    }

    /// Something was heard of a window.
    pub(crate) fn hear_of(&mut self, window: u32, fact: Fact) -> Result<(), NoMemory>
        ensures { OnOk result (self.new ≡ heard_of window fact self.old) }
    {
        if self.windows.is_followed(window) {
            return self.learn(window, fact);
        }
        drop(fact);
        Ok(())
    }

    fn is_check(&self, window: u32) -> bool
        ensures { result ≡ checks window self.now.mode }
    {
        match self.mode {
            Mode::Unknown => false,
            Mode::Listed { check } => check == window,
            Mode::Stated => false,
            Mode::Bare => false,
        }
    }

    /// A window is destroyed.
    pub(crate) fn lose(&mut self, window: u32) -> Result<(), NoMemory>
        ensures { OnOk result (self.new ≡ gone_so window self.old) }
    {
        self.windows.forget(window);
        if self.is_check(window) {
            self.mode = Mode::Unknown;
            return self.look();
        }
        Ok(())
    }
}

/// A window that says something of the one of which something was heard.
#[derive(Clone, Copy, Debug, PartialEq, Eq)]
pub enum Companion {
    None,
    Leader(u32),
    UserTime(u32),
}

fn companion_of(fact: &Fact) -> Companion
    ensures { result ≡ companion_in fact.now }
{
    match fact {
        Fact::Leader(Some(window)) => Companion::Leader(*window),
        Fact::UserTimeWindow(Some(window)) => Companion::UserTime(*window),
        _ => Companion::None,
    }
}
