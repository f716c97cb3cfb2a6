ghost use Rattle.setup_agreement.specs.Laws.{OtherCookiesAreKeptOut, OtherVersionsAreKeptOut, RightCookiesAreLetIn};
ghost use Rattle.setup_agreement.specs.Wires.{OtherCookiesAreKeptOutByBytes, OtherVersionsAreKeptOutByBytes, RightCookiesAreLetInByBytes};

/// Does nothing: its contract is a law of every set-up. A client with the manager's cookie is let in,
/// without an Error of either.
pub fn right_cookies_are_let_in()
    ensures { RightCookiesAreLetIn }
{}

/// Does nothing: its contract is a law of every set-up. So it is where the bytes come in any pieces.
pub fn right_cookies_are_let_in_by_bytes()
    ensures { RightCookiesAreLetInByBytes }
{}

/// Does nothing: its contract is a law of every set-up. Where a client has another cookie the manager
/// says so and closes, and the client ends.
pub fn other_cookies_are_kept_out()
    ensures { OtherCookiesAreKeptOut }
{}

/// Does nothing: its contract is a law of every set-up. So it is where the bytes come in any pieces.
pub fn other_cookies_are_kept_out_by_bytes()
    ensures { OtherCookiesAreKeptOutByBytes }
{}

/// Does nothing: its contract is a law of every set-up. Where a client offers no version that the
/// manager speaks, the manager says so and closes, and the client ends.
pub fn other_versions_are_kept_out()
    ensures { OtherVersionsAreKeptOut }
{}

/// Does nothing: its contract is a law of every set-up. So it is where the bytes come in any pieces.
pub fn other_versions_are_kept_out_by_bytes()
    ensures { OtherVersionsAreKeptOutByBytes }
{}
