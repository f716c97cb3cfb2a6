ghost use Rattle.display_place.specs.Laws.{HoldOne, NamesOne, OwnStaysHere};

/// Does nothing: its contract is a law of all texts. A text names one display at most, and one that
/// is refused, but for want of memory, names none.
pub fn a_text_names_one_display()
    ensures { NamesOne }
{}

/// Does nothing: its contract is a law of all bytes. They hold one list of entries at most.
pub fn bytes_hold_one_list()
    ensures { HoldOne }
{}

/// Does nothing: its contract is a law of all authority files. For a display of another machine no
/// entry is taken that is for this machine's own sockets.
pub fn own_cookies_stay_here()
    ensures { OwnStaysHere }
{}
