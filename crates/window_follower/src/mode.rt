/// Which windows there are.
#[derive(Clone, Copy, Debug, PartialEq, Eq)]
pub enum Mode {
    /// It isn't known yet.
    Unknown,
    /// Those of the list that a window manager keeps, whose own window this is (EWMH, Root Window
    /// Properties).
    Listed { check: u32 },
    /// Those with a WM_STATE of a window manager that keeps no list.
    Stated,
    /// Those that are shown below the root, where there is no window manager.
    Bare,
}
