ghost use Rattle.std.specs.Prelude.{◌≡◌, option_and_then};
ghost use Rattle.session_watch.specs.Knowing.{worked_in, work_in, answers as answered_in, after_done, after_waiting, staged, stage_from, holds_up};
ghost use Rattle.session_watch.specs.Lines.{stage_excused, stage_shown};

use crate::asking::{Answered, Asked};

/// How far a client is.
#[derive(Clone, Copy, Debug, PartialEq, Eq)]
pub enum Stage {
    /// It has no ID yet.
    Joining,
    Idle,
    /// It was asked to save itself, or to do so in the second phase.
    Saving,
    /// It was let talk with the user.
    Interacting,
    /// It waits for the second phase.
    Waiting,
    /// It has said that it is saved, or that it couldn't.
    Done,
    /// It was told to die.
    Dying,
    /// Its connection can't be read any more.
    Unreadable,
}

/// What a client does that answers so.
pub fn worked(answered: Answered) -> Option<Stage>
    ensures { result ≡ worked_in answered }
{
    match answered {
        Answered::Registered => None,
        Answered::SaveRequested => None,
        Answered::InteractRequested => None,
        Answered::InteractEnded => Some(Stage::Saving),
        Answered::PhaseTwoRequested => Some(Stage::Waiting),
        Answered::Saved => Some(Stage::Done),
        Answered::Failed => Some(Stage::Done),
        Answered::Closed => None,
    }
}

/// What a client has to do that is asked so.
pub fn work(asked: Asked) -> Option<Stage>
    ensures { result ≡ work_in asked }
{
    match asked {
        Asked::Save { .. } => Some(Stage::Saving),
        Asked::Interaction => Some(Stage::Interacting),
        Asked::PhaseTwo => Some(Stage::Saving),
        Asked::Complete => None,
        Asked::Cancelled => None,
        Asked::Death => Some(Stage::Dying),
    }
}

fn after_done(asked: Option<Asked>) -> Stage
    ensures { result ≡ after_done asked }
{
    match asked {
        Some(Asked::Complete) => Stage::Idle,
        Some(Asked::Cancelled) => Stage::Idle,
        _ => Stage::Done,
    }
}

fn after_waiting(asked: Option<Asked>) -> Stage
    ensures { result ≡ after_waiting asked }
{
    match asked {
        Some(Asked::Cancelled) => Stage::Saving,
        _ => Stage::Waiting,
    }
}

impl Stage {
    /// The stage of a client whose work this is, by what it was asked last.
    pub fn after(work: Option<Stage>, asked: Option<Asked>) -> Stage
        ensures { result ≡ stage_from work asked }
    {
        match work {
            Some(Stage::Done) => after_done(asked),
            Some(Stage::Waiting) => after_waiting(asked),
            Some(stage) => stage,
            None => Stage::Joining,
        }
    }

    /// The stage of a client that somebody has answered for, so that nobody waits for its answer.
    fn excused(self) -> Stage
        ensures { result ≡ stage_excused self }
    {
        match self {
            Stage::Saving => Stage::Idle,
            Stage::Interacting => Stage::Idle,
            Stage::Waiting => Stage::Idle,
            Stage::Joining => Stage::Joining,
            Stage::Idle => Stage::Idle,
            Stage::Done => Stage::Done,
            Stage::Dying => Stage::Dying,
            Stage::Unreadable => Stage::Unreadable,
        }
    }

    /// The stage as it is shown.
    pub fn shown(self, excused: bool) -> Stage
        ensures { result ≡ stage_shown excused self }
    {
        if excused { self.excused() } else { self }
    }

    /// Whether somebody waits for a client: to answer SaveYourself or SaveYourselfPhase2, to say
    /// InteractDone, or to leave.
    pub fn holds_up(self) -> bool
        ensures { result ≡ holds_up self }
    {
        match self {
            Stage::Saving => true,
            Stage::Interacting => true,
            Stage::Dying => true,
            Stage::Joining => false,
            Stage::Idle => false,
            Stage::Waiting => false,
            Stage::Done => false,
            Stage::Unreadable => false,
        }
    }
}
