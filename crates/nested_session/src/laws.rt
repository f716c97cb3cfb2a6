ghost use Rattle.nested_session.specs.Asked.{OrdersAreAskedFor};
ghost use Rattle.nested_session.specs.Awaited.{AwaitedEndsAreSaid, AwaitedIsDue};
ghost use Rattle.nested_session.specs.Nests.{AwaitedSavesAreBacked, BothLeaveTheSame};
ghost use Rattle.nested_session.specs.Examples.{ASaveIsTold};
ghost use Rattle.nested_session.specs.Tags.{TagsAreTrue};

/// Does nothing: its contract is a law. A crash leaves the same files of a session with its outer
/// connection as of the session alone.
pub fn both_leave_the_same()
    ensures { BothLeaveTheSame }
{}

/// Does nothing: its contract is a law. Where the end of a save is awaited and a round that began later
/// was agreed, its book stands in each file that a crash could leave, or a later one does.
pub fn awaited_saves_are_backed()
    ensures { AwaitedSavesAreBacked }
{}

/// Does nothing: its contract is a worked save. Where nobody is registered, an order to save is put, its
/// line is printed, and the success is told to the outer manager.
pub fn a_save_is_told()
    ensures { ASaveIsTold }
{}

/// Does nothing: its contract is a law. The inner session hears and does nothing on connection 0: the
/// effects on it are those that are said to be of the outer connection, in their order.
pub fn tags_are_true()
    ensures { TagsAreTrue }
{}

/// Does nothing: its contract is a law. As long as the session goes on and its agent is there, the end
/// of a save is awaited exactly where it is due to the agent, by all that came to that.
pub fn awaited_is_due()
    ensures { AwaitedIsDue }
{}

/// Does nothing: its contract is a law. As long as the session goes on and its agent is there, the end
/// of a save that is told to it is said where it is awaited and the outer manager is still heard, and
/// nowhere else.
pub fn awaited_ends_are_said()
    ensures { AwaitedEndsAreSaid }
{}

/// Does nothing: its contract is a law. An order to save is put to the session nowhere but behind a piece
/// of the outer manager's by which the agent, as it stands then, is asked for a save, and before anything
/// else comes.
pub fn orders_are_asked_for()
    ensures { OrdersAreAskedFor }
{}
