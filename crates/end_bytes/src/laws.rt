ghost use Rattle.end_bytes.specs.BytePairs.{PairsKeepToRuns};
ghost use Rattle.end_bytes.specs.Elsewhere.{OthersHappenBeside, SessionsRun};
ghost use Rattle.end_bytes.specs.Entering.{ClientsOpen, ManagersSetUp};
ghost use Rattle.end_bytes.specs.Examples.{AClientRegisters, AClientSaves, AConnectionIsGreeted};
ghost use Rattle.end_bytes.specs.Following.{PartsAreHeard, PiecesAreHeard};
ghost use Rattle.end_bytes.specs.Hearing.{ClientsSayNoError, ManagersHearMessages};
ghost use Rattle.end_bytes.specs.Saying.{AllThatIsSentIsSaid};
ghost use Rattle.end_bytes.specs.SettingUp.{BothEndsKeepFromTheFirstByte, SetUpsBegin, SetUpsGoOn};
ghost use Rattle.end_bytes.specs.Talking.{BothEndsKeepTheirBytes, EnteringGoesOn, QuietEndsAgree, TalkingBegins, TalkingGoesOn, TalkingIsClean, TalkingStays};

/// Does nothing: its contract is a law of managers. One takes the message that the frame of a client
/// spells: a message of ICE by the set-up's table, and one of XSMP is told to the session, as long as
/// XSMP is spoken. Where that has ended the frame is answered by BadMajor.
pub fn managers_hear_messages()
    ensures { ManagersHearMessages }
{}

/// Does nothing: its contract is a law of managers. What one says on a connection as its session is told
/// of something is what the session sends on it.
pub fn all_that_is_sent_is_said()
    ensures { AllThatIsSentIsSaid }
{}

/// Does nothing: its contract is a law of every schedule. What waits for the manager from a client is no
/// Error.
pub fn clients_say_no_error()
    ensures { ClientsSayNoError }
{}

/// Does nothing: its contract is a law of managers. What one does about the frames of the messages that
/// wait for it from a client is a list of steps of a schedule, also where XSMP ends in their middle.
pub fn parts_are_heard()
    ensures { PartsAreHeard }
{}

/// Does nothing: its contract is a law of managers. So it is of a piece of the bytes that are under way
/// to one, of any length.
pub fn pieces_are_heard()
    ensures { PiecesAreHeard }
{}

/// Does nothing: its contract is a law of managers. What comes to one from elsewhere, as of another
/// connection whatever that sends, is a list of steps of a schedule at which something happens beside a
/// client.
pub fn others_happen_beside()
    ensures { OthersHappenBeside }
{}

/// Does nothing: its contract is a law of managers. The session of one is told of events, so whatever
/// holds between the events of every run holds of it.
pub fn sessions_run()
    ensures { SessionsRun }
{}

/// Does nothing: its contract is a law of managers. One does about a frame of the set-up what the table
/// says of its message: it says the table's answer, and tells its session where XSMP begins, or where
/// the connection is closed.
pub fn managers_set_up()
    ensures { ManagersSetUp }
{}

/// Does nothing: its contract is a law of clients. One that is opening does about a frame of the set-up
/// what its table says of the message, and registers once it has joined.
pub fn clients_open()
    ensures { ClientsOpen }
{}

/// Does nothing: its contract is a law of a manager and a client that exchange bytes. Whatever is done,
/// the manager's session is one of a run.
pub fn pairs_keep_to_runs()
    ensures { PairsKeepToRuns }
{}

/// Does nothing: its contract is three worked pairs, which the definitions compute: what is under way as
/// a client connects, all that is said until it has registered and is asked to save, and until that save
/// is over.
pub fn worked_pairs()
    ensures greeted { AConnectionIsGreeted }
    ensures registers { AClientRegisters }
    ensures saves { AClientSaves }
{}

/// Does nothing: its contract is a law of a manager and a client that exchange bytes. Where XSMP has begun
/// and the client hasn't heard that yet, each step leaves it so, or the client has joined and both talk.
pub fn entering_goes_on()
    ensures { EnteringGoesOn }
{}

/// Does nothing: its contract is a law of a manager and a client that exchange bytes. Both talk once XSMP
/// has begun on the connection and the client has joined.
pub fn talking_begins()
    ensures { TalkingBegins }
{}

/// Does nothing: its contract is a law of a manager and a client that exchange bytes and talk XSMP. Each
/// step of either, with any pieces, is a list of steps of a schedule, and both talk still, where XSMP is
/// spoken then and what was said has a spelling.
pub fn talking_goes_on()
    ensures { TalkingGoesOn }
{}

/// Does nothing: its contract is a law of a manager and a client that exchange bytes and talk XSMP. So is
/// every list of such steps, as long as XSMP is spoken.
pub fn talking_stays()
    ensures { TalkingStays }
{}

/// Does nothing: its contract is a law of a manager and a client that exchange bytes and talk XSMP. Where
/// nothing is under way, both agree.
pub fn quiet_ends_agree()
    ensures { QuietEndsAgree }
{}

/// Does nothing: its contract is a law of a manager and a client that exchange bytes and talk XSMP. The
/// session has never answered the client by BadState.
pub fn talking_is_clean()
    ensures { TalkingIsClean }
{}

/// Does nothing: its contract is a law of a manager and a client that exchange bytes. From where XSMP
/// has begun on the connection, whatever the pieces and whatever else comes, and as long as XSMP is
/// spoken: the session never answers the client by BadState, and both agree wherever nothing is under
/// way.
pub fn both_ends_keep_their_bytes()
    ensures { BothEndsKeepTheirBytes }
{}

/// Does nothing: its contract is a law of a manager and a client that exchange bytes. As a client
/// connects both set up the connection, or the manager has shut it at once.
pub fn set_ups_begin()
    ensures { SetUpsBegin }
{}

/// Does nothing: its contract is a law of a manager and a client that exchange bytes. Each step of a
/// set-up leaves it one, or XSMP has begun, or the connection is gone at the manager, and stays so;
/// where XSMP has begun it goes on as [`entering_goes_on`] and [`talking_goes_on`] say.
pub fn set_ups_go_on()
    ensures { SetUpsGoOn }
{}

/// Does nothing: its contract is a law of a manager and a client that exchange bytes. From the first byte
/// on, whatever the pieces and whatever else comes, and as long as XSMP is spoken once it has begun: the
/// manager never says an Error with BadState on the connection, of ICE or of XSMP, and both agree wherever
/// nothing is under way on a connection that stands. So no set-up stands still.
pub fn both_ends_keep_from_the_first_byte()
    ensures { BothEndsKeepFromTheFirstByte }
{}
