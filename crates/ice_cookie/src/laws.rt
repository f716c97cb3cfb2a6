ghost use Rattle.ice_cookie.specs.Laws.{EntriesReadBack, BytesStandForOne};

/// Does nothing: its contract is a law of all entries. The bytes that spell them stand for them,
/// and for nothing else.
pub fn entries_read_back()
    ensures { EntriesReadBack }
{}

/// Does nothing: its contract is a law of all bytes. They spell one list of entries at most, and
/// where they spell none they have one place at most from which on they are short.
pub fn bytes_stand_for_one()
    ensures { BytesStandForOne }
{}
