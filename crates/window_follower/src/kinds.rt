ghost use Rattle.std.specs.Prelude.{◌≡◌};
ghost use Rattle.window_follower.specs.Kinds.{class_of, kind_of as is_kind, purpose_of as purpose};

use crate::{WindowFacts, WindowType};

/// What a window counts as, where programs are asked to close.
#[derive(Clone, Copy, Debug, PartialEq, Eq)]
pub enum Kind {
    /// A program's own window, which is asked to close.
    Main,
    /// A dialog: it is never asked, and its program may wait for its user in it.
    Auxiliary,
    /// A window that can't be asked, as a panel.
    Fixed,
    /// A window that is shown in passing, as a menu: it counts for nothing.
    Passing,
}

/// What it is for: what it states, and without that a dialog where it belongs to another window.
fn purpose_of(facts: &WindowFacts) -> WindowType
    ensures { result ≡ purpose facts.now }
{
    match facts.purpose {
        Some(purpose) => purpose,
        None => match facts.transient_for {
            Some(_) => WindowType::Dialog,
            None => WindowType::Normal,
        },
    }
}

/// The kind of a window of this type.
fn class(belongs: bool, deletes: bool, purpose: WindowType) -> Kind
    ensures { result ≡ class_of belongs deletes purpose }
{
    match purpose {
        WindowType::Normal => {
            if belongs {
                Kind::Auxiliary
            } else if deletes {
                Kind::Main
            } else {
                Kind::Fixed
            }
        }
        WindowType::Dialog => Kind::Auxiliary,
        WindowType::Dock => Kind::Fixed,
        WindowType::Desktop => Kind::Fixed,
        _ => Kind::Passing,
    }
}

/// The kind of a window. It belongs to another one where it is transient for a window that is known.
pub fn kind_of(facts: &WindowFacts, belongs: bool) -> Kind
    ensures { result ≡ is_kind belongs facts.now }
{
    class(belongs, facts.deletes, purpose_of(facts))
}
