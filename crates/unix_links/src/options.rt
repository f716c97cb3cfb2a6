/// What can be chosen of the links.
#[derive(Clone, Copy, Debug, PartialEq, Eq)]
pub struct LinkOptions {
    /// Nobody can connect to the abstract name. It is held all the same, so that nobody else takes it.
    pub is_private: bool,
    /// How many milliseconds a client has to close its connection once it was told to die; with 0 it has
    /// as many as it likes.
    pub last_wait: u64,
    /// For how many milliseconds a client may be silent that is waited for; with 0 for as many as it
    /// likes, and then nobody is told what time it is.
    pub patience: u64,
}

impl LinkOptions {
    /// Both doors are open, and whoever is waited for or was told to die has all the time.
    pub fn new() -> LinkOptions {
        LinkOptions {
            is_private: false,
            last_wait: 0,
            patience: 0,
        }
    }
}
