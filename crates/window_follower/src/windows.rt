ghost use Rattle.std.specs.Prelude.{◌≡◌, ◌∷◌, [], ◌++◌, false, find, option_copied, position, OnOk};
ghost use Rattle.window_follower.specs.Windows.{forgotten, is_followed as followed_in, is_listed as listed_in, is_of, marked, settled, told, fresh, has_left};

use crate::facts::{Fact, WindowFacts};
use owned_lists::NoMemory;
use std::alloc::Global;
use std::marker::Model;

/// A window whose changes are heard.
#[derive(Debug, Drop)]
pub struct Followed {
    pub window: u32,
    /// Whether it was in a list of windows; the others say something of those that were.
    pub listed: bool,
    pub facts: WindowFacts,
}

impl Followed {
    fn new(window: u32, listed: bool) -> Followed
        ensures { result ≡ fresh window listed }
    {
        Followed {
            window,
            listed,
            facts: WindowFacts::new(),
        }
    }

    /// Whether it was in a list and has left by itself.
    fn has_left(&self) -> bool
        ensures { result ≡ has_left self.now }
    {
        self.listed && self.facts.is_withdrawn()
    }
}

fn place_of(rows: &[Followed], window: u32) -> Option<usize>
    ensures { result ≡ position (is_of window) rows.now }
{
    rows.iter().position(|row| row.window == window)
}

/// The windows whose changes are heard, in the order in which they came.
#[derive(Debug, Drop)]
pub struct Windows {
    rows: Vec<Followed>,
}

impl Model for Windows {
    ghost use Rattle.std.specs.Prelude.{List};
    ghost use Rattle.window_follower.specs.declared.windows.Followed.{Followed as AnyFollowed};

    ghost Value = { List AnyFollowed };

    ghost view = { λ windows. windows.rows.items };
}

impl Windows {
    /// None; this takes no memory.
    pub fn new(alloc: Global) -> Windows
        ensures { result ≡ [] }
    {
        Windows {
            rows: Vec::new(alloc),
        }
    }

    pub fn as_slice(&self) -> &[Followed]
        ensures { result.now ≡ self.now }
    {
        self.rows.as_slice()
    }

    /// What is known of a window.
    pub fn get(&self, window: u32) -> Option<&Followed>
        ensures { option_copied result ≡ find (is_of window) self.now }
    {
        self.rows.iter().find(|row| row.window == window)
    }

    pub fn is_followed(&self, window: u32) -> bool
        ensures { result ≡ followed_in window self.now }
    {
        self.rows.iter().any(|row| row.window == window)
    }

    /// Whether a window was in a list.
    pub fn is_listed(&self, window: u32) -> bool
        ensures { result ≡ listed_in window self.now }
    {
        self.rows
            .iter()
            .any(|row| row.window == window && row.listed)
    }

    /// A window is followed, of which nothing is known yet.
    pub(crate) fn follow(&mut self, window: u32) -> Result<(), NoMemory>
        ensures { OnOk result (self.new ≡ self.old ++ fresh window false ∷ []) }
    {
        self.rows.push(Followed::new(window, false))?;
        Ok(())
    }

    /// A window was in a list.
    pub(crate) fn mark(&mut self, window: u32)
        ensures { self.new ≡ marked window self.old }
    {
        if let Some(place) = place_of(self.rows.as_slice(), window) {
            self.rows[place].listed = true;
        }
    }

    /// Something was heard of a window.
    fn tell(&mut self, window: u32, fact: Fact)
        ensures { self.new ≡ told window fact self.old }
    {
        match place_of(self.rows.as_slice(), window) {
            Some(place) => self.rows[place].facts.learn(fact),
            None => drop(fact),
        }
    }

    /// Those that have left by themselves are followed no more.
    fn settle(&mut self)
        ensures { self.new ≡ settled self.old }
    {
        self.rows.retain(|row| !row.has_left());
    }

    /// Something was heard of a window, by which it may have left.
    pub(crate) fn learn(&mut self, window: u32, fact: Fact)
        ensures { self.new ≡ settled (told window fact self.old) }
    {
        self.tell(window, fact);
        self.settle();
    }

    /// A window is gone.
    pub(crate) fn forget(&mut self, window: u32)
        ensures { self.new ≡ forgotten window self.old }
    {
        self.rows.retain(|row| row.window != window);
    }
}
