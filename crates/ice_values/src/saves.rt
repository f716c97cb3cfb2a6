/// What a SaveYourself asks to be saved (XSMP, chapter 10: 0, 1 and 2 in this order).
#[derive(Clone, Copy, Debug, PartialEq, Eq)]
pub enum SaveKind {
    Global,
    Local,
    Both,
}

/// Which dialogs a client may show while it saves (XSMP, chapter 10: 0, 1 and 2 in this order).
/// `Nothing` is the protocol's style None.
#[derive(Clone, Copy, Debug, PartialEq, Eq)]
pub enum SaveStyle {
    Nothing,
    Errors,
    Any,
}

/// What a client wants to talk about with the user (XSMP, chapter 10: 0 and 1 in this order).
#[derive(Clone, Copy, Debug, PartialEq, Eq)]
pub enum Dialog {
    Error,
    Normal,
}
