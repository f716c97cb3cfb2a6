ghost use Rattle.std.specs.Prelude.{◌≡◌, find, None, IfOk, map};
ghost use Rattle.program_keeper.specs.Windows.{comes_first as comes_first_spec, has_dialog as has_dialog_spec, is_aux as is_aux_spec, is_main as is_main_spec, is_over as is_over_spec, is_target, next_main as next_main_spec, number_of, sooner as sooner_spec};

use owned_lists::{ListOf, NoMemory};
use std::alloc::Global;

/// What a window is to its program.
#[derive(Clone, Copy, Debug, PartialEq, Eq)]
pub enum WindowKind {
    /// It shows the program's work, and can be asked to close.
    Main,
    /// A dialog or a tool of the program. It is never asked to close.
    Aux,
    /// It is no work of the user, as a panel, and is never asked to close.
    Fixed,
}

/// A window of the program.
#[derive(Clone, Copy, Debug, PartialEq, Eq)]
pub struct Window {
    pub number: u32,
    pub kind: WindowKind,
    /// Whether it keeps the program's other windows from the user.
    pub modal: bool,
    /// The number of the window that it is transient for.
    pub over: Option<u32>,
    /// A stamp of its title: another one for another title.
    pub title: u64,
    /// The display's time of the last key or button in it.
    pub touched: u32,
    /// Whether it answers pings.
    pub pings: bool,
}

pub type WindowList = ListOf<Window>;

/// The numbers of windows.
pub type WindowNumbers = ListOf<u32>;

impl WindowKind {
    pub(crate) fn is_main(self) -> bool
        ensures { result ≡ is_main_spec self }
    {
        match self {
            WindowKind::Main => true,
            WindowKind::Aux => false,
            WindowKind::Fixed => false,
        }
    }

    pub(crate) fn is_aux(self) -> bool
        ensures { result ≡ is_aux_spec self }
    {
        match self {
            WindowKind::Main => false,
            WindowKind::Aux => true,
            WindowKind::Fixed => false,
        }
    }
}

/// Whether a window is transient for the one of this number.
fn is_over(window: Window, number: u32) -> bool
    ensures { result ≡ is_over_spec window number }
{
    match window.over {
        Some(below) => below == number,
        None => false,
    }
}

/// Whether a dialog belongs to the window of this number.
fn has_dialog(windows: &[Window], number: u32) -> bool
    ensures { result ≡ has_dialog_spec windows.now number }
{
    windows
        .iter()
        .any(|window| window.kind.is_aux() && is_over(*window, number))
}

/// Whether the first of two windows is asked before the second one.
fn comes_first(windows: &[Window], first: Window, second: Window) -> bool
    ensures { result ≡ comes_first_spec windows.now first second }
{
    let busy = has_dialog(windows, first.number);
    if has_dialog(windows, second.number) {
        !busy || first.number < second.number
    } else {
        !busy && first.number < second.number
    }
}

/// Which of two windows is asked first, where there is a first one at all.
fn sooner(windows: &[Window], found: Option<Window>, window: Window) -> Window
    ensures { result ≡ sooner_spec windows.now found window }
{
    match found {
        None => window,
        Some(best) => {
            if comes_first(windows, window, best) {
                window
            } else {
                best
            }
        }
    }
}

/// The main window that is asked next.
pub(crate) fn next_main(windows: &[Window]) -> Option<Window>
    ensures { result ≡ next_main_spec windows.now None windows.now }
{
    let mut found = None;
    let mut left = windows;
    while let Some((window, rest)) = left.split_first() {
        if window.kind.is_main() {
            found = Some(sooner(windows, found, *window));
        }
        left = rest;
    }
    found
}

/// The main window of this number, where it stands.
pub(crate) fn main_window(windows: &[Window], number: u32) -> Option<Window>
    ensures { result ≡ find (is_target number) windows.now }
{
    windows
        .iter()
        .copied()
        .find(|window| window.kind.is_main() && window.number == number)
}

/// The numbers of all windows.
pub(crate) fn numbers_of(alloc: Global, windows: &[Window]) -> Result<WindowNumbers, NoMemory>
    ensures { IfOk result (λ numbers. numbers ≡ map number_of windows.now) }
{
    let mut numbers = WindowNumbers::new(alloc);
    for window in windows {
        numbers.push(window.number)?;
    }
    Ok(numbers)
}
