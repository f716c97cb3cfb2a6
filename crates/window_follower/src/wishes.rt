/// What a display is asked because somebody wishes it.
#[derive(Clone, Copy, Debug, PartialEq, Eq)]
pub enum Wish {
    /// A window is asked to close (ICCCM, section 4.2.8.1).
    Close { window: u32 },
    /// The window manager is asked to show a window (EWMH, _NET_ACTIVE_WINDOW).
    Show { window: u32 },
    /// A window's program is asked whether it listens; its answer is `News::Pong` with this stamp.
    Ping { window: u32, stamp: u32 },
    /// `News::Marked` with this number comes once all is answered that was asked before. 0 is the number of
    /// the marks that are asked for by themselves.
    Mark { number: u32 },
}
