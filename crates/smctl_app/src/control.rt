ghost use Rattle.std.specs.Prelude.{◌≡◌, ◌-◌, List, ℕ, Option, length, slice_get, Some, IfErr, IfOk};
ghost use Rattle.std.specs.Io.{StopsAt};
ghost use Rattle.smctl_app.specs.Requests.{IsOutside};
ghost use Rattle.smctl_app.specs.Talking.{Adds, AreQuestions, more, of_line, of_look};
ghost use Rattle.smctl_app.specs.declared.waiting.Glance.{Glance};

use crate::fault::Fault;
use crate::waiting::Glance;
use std::alloc::Global;

/// What is seen of a logout that is waited for.
#[derive(Debug, Drop)]
pub struct Look {
    pub glance: Glance,
    /// Who is waited for, on one line.
    pub waited_for: String,
}

/// Lines to a manager, and its answers.
pub trait Talk {
    // The lines that were sent so far, in their order, where that is told.
    ghost sent: { Self → Option (List (List ℕ)) };

    // What the looks have seen so far, in their order, where that is told.
    ghost seen: { Self → Option (List Glance) };

    /// Sends a line, which ends in a newline.
    fn say(&mut self, line: &[u8]) -> Result<(), Fault>
        ensures sent { Self.sent self.new ≡ more (Self.sent self.old) (of_line line.now result) }
        ensures seen { Self.seen self.new ≡ Self.seen self.old }
        ensures cause { IfErr result IsOutside };

    /// The next line that the manager answers, with its newline. One without a newline was cut off.
    fn hear(&mut self) -> Result<Vec<u8>, Fault>
        ensures whole { IfOk result (λ line. slice_get line.items (length line.items - 1)
            ≡ Some 10) }
        ensures one { IfOk result (λ line. StopsAt line.items 10) }
        ensures sent { Self.sent self.new ≡ Self.sent self.old }
        ensures seen { Self.seen self.new ≡ Self.seen self.old }
        ensures cause { IfErr result IsOutside };
}

/// A connection to a manager.
pub trait Control: Talk {
    /// Asks who is there and what the session is at, and tells what that shows of a logout.
    fn look(&mut self, alloc: Global) -> Result<Look, Fault>
        ensures sent { Adds (Self.sent self.old) (Self.sent self.new) AreQuestions }
        ensures seen { Self.seen self.new ≡ more (Self.seen self.old) (of_look result) }
        ensures cause { IfErr result IsOutside };

    /// Waits for half a second, or until the manager has gone, and says whether it is still there.
    /// An end that is told as a fault, such as a stream that is reset, is one for the caller.
    fn rest(&mut self) -> Result<bool, Fault>
        ensures sent { Self.sent self.new ≡ Self.sent self.old }
        ensures seen { Self.seen self.new ≡ Self.seen self.old }
        ensures cause { IfErr result IsOutside };

    /// Whether something still stands at the socket's path.
    fn is_left(&self) -> bool;
}
