ghost use Rattle.std.specs.Prelude.{◌≡◌, ℕ, Option, cond, option_copied, true, OnOk};
ghost use Rattle.round_agreement.specs.Agreement.{are_distinct, is_at, is_first_saving as saves_first, is_saving as saves, with_second, without_member};
ghost use Rattle.session_model.specs.declared.phase.Phase.{Phase as APhase};
ghost use Rattle.session_model.specs.declared.events.SessionEvent.TheVariants.{Left as HasLeft, Said as HasSaid};
ghost use Rattle.session_model.specs.Moves.{Agreed as IsAgreed, Began as HasBegun, Cancelled as IsCancelled, Outside, Over as IsOver};
ghost use Rattle.session_model.specs.Phases.{is_first_saving, is_saving};
ghost use Rattle.session_model.specs.Reading.{wanted_in};
ghost use Rattle.session_state.specs.Session.{in_round, round_said};
ghost use Rattle.session_rounds.specs.Rounds.{is_member_at, may_begin_second, none_ran, progress_of as progress_in, progress_with, running_after};

use crate::marks::{agreed, begun, ended};
use owned_lists::NoMemory;
use round_agreement::{Round, Wanted};
use session_clients::{is_first_saving, is_saving};
use session_model::{Marks, Phase};
use sm_world::{Conn, ConnList};
use std::alloc::Global;
use std::marker::Model;
use xsmp_messages::XsmpMessage;

/// The round that runs, where one does, and how far the rounds of all clients are.
#[derive(Drop)]
pub struct RunningRound {
    round: Option<Round>,
    marks: Marks,
}

impl Model for RunningRound {
    ghost use Rattle.session_rounds.specs.Rounds.{Running};

    ghost Value = { Running };

    ghost view = { λ running. record { round = running.round; marks = running.marks } };
}

/// How far the rounds are.
#[derive(Clone, Copy, Drop)]
pub enum Progress {
    /// No round runs.
    Idle,
    /// The second phase of the running round can begin.
    SecondPhase,
    /// The members of the running round agree.
    Agreement,
    /// All members have left the running round.
    Deserted,
    /// Members still save.
    Saving,
}

impl RunningRound {
    /// No round has run yet.
    pub fn new() -> RunningRound
        ensures { result ≡ none_ran }
    {
        RunningRound {
            round: None,
            marks: Marks {
                begun: 0,
                ended: 0,
                agreed: 0,
            },
        }
    }

    /// The round that runs.
    pub fn round(&self) -> Option<&Round>
        ensures { option_copied result ≡ self.now.round }
    {
        self.round.as_ref()
    }

    /// What the round that runs was begun for.
    pub fn wanted(&self) -> Option<Wanted>
        ensures { result ≡ wanted_in self.now.round }
    {
        wanted_in(&self.round)
    }

    /// How far the rounds of all clients are.
    pub fn marks(&self) -> Marks
        ensures { result ≡ self.now.marks }
    {
        self.marks
    }

    /// How far the rounds are.
    pub fn progress(&self) -> Progress
        ensures { result ≡ progress_in self.now.round }
    {
        match &self.round {
            Some(round) => progress_of(round),
            None => Progress::Idle,
        }
    }

    /// A round begins with these members.
    pub fn begin(&mut self, alloc: Global, conns: ConnList, wanted: Wanted) -> Result<(), NoMemory>
        requires { are_distinct conns ≡ true }
        ensures { OnOk result ((phases : ℕ → Option APhase) →
            self.new ≡ running_after (HasBegun conns wanted) phases self.old) }
    {
        let round = Round::begin(alloc, conns, wanted)?;
        self.round = Some(round);
        self.marks = begun(self.marks, wanted);
        Ok(())
    }

    /// The round ends without an agreement: it was left by all its members, or is called off.
    pub fn end(&mut self)
        ensures over { (phases : ℕ → Option APhase) →
            self.new ≡ running_after IsOver phases self.old }
        ensures cancelled { (phases : ℕ → Option APhase) →
            self.new ≡ running_after IsCancelled phases self.old }
    {
        self.marks = ended(self.marks, wanted_in(&self.round));
        self.round = None;
    }

    /// The members of the round agreed.
    pub fn agree(&mut self)
        ensures { (phases : ℕ → Option APhase) → self.new ≡ running_after IsAgreed phases self.old }
    {
        self.marks = agreed(self.marks, wanted_in(&self.round));
        self.round = None;
    }

    /// A connection is no member any more.
    pub fn leave(&mut self, conn: Conn)
        ensures { (phases : ℕ → Option APhase) → self.new
            ≡ running_after (Outside (HasLeft conn)) phases self.old }
    {
        leave_round(&mut self.round, conn);
    }

    /// A member says something of its save, and was in this phase before.
    pub fn hear(&mut self, conn: Conn, message: &XsmpMessage, phase: Option<Phase>)
        requires saving { is_saving phase ≡ true →
            is_member_at (λ d r. is_at saves d r.members) conn self.old.round ≡ true }
        requires saving_first { is_first_saving phase ≡ true →
            is_member_at (λ d r. is_at saves_first d r.members) conn self.old.round ≡ true }
        ensures round { (phases : ℕ → Option APhase) → phases conn ≡ phase →
            self.new.round ≡ round_said conn message.now phases self.old.round }
        ensures marks { self.new.marks ≡ self.old.marks }
    {
        hear_round(&mut self.round, conn, message, phase);
    }

    /// Begins the second phase of the round that runs, where it can begin. False where it can't,
    /// and then nothing is done.
    pub fn start_second(&mut self) -> bool
        ensures ready { result ≡ may_begin_second self.old.round }
        ensures round { self.new.round ≡ cond result
            (in_round with_second self.old.round) self.old.round }
        ensures marks { self.new.marks ≡ self.old.marks }
    {
        start_second(&mut self.round)
    }
}

/// How far a round is.
fn progress_of(round: &Round) -> Progress
    ensures { result ≡ progress_with round.now }
{
    if round.two_ready() {
        Progress::SecondPhase
    } else if round.agreed() {
        Progress::Agreement
    } else if round.deserted() {
        Progress::Deserted
    } else {
        Progress::Saving
    }
}

/// What the running round was begun for.
fn wanted_in(round: &Option<Round>) -> Option<Wanted>
    ensures { result ≡ wanted_in round.now }
{
    match round {
        Some(round) => Some(*round.wanted()),
        None => None,
    }
}

/// A connection is no member any more.
fn leave_round(round: &mut Option<Round>, conn: Conn)
    ensures { round.new ≡ in_round (without_member conn) round.old }
{
    if let Some(round) = round {
        round.leave(conn);
    }
}

/// A member says something of its save, and was in this phase before.
fn hear_round(round: &mut Option<Round>, conn: Conn, message: &XsmpMessage, phase: Option<Phase>)
    requires saving { is_saving phase ≡ true → is_member_at (λ d r.
        is_at saves d r.members) conn round.old ≡ true }
    requires saving_first { is_first_saving phase ≡ true →
        is_member_at (λ d r. is_at saves_first d r.members) conn round.old ≡ true }
    ensures { (phases : ℕ → Option APhase) → phases conn ≡ phase →
        round.new ≡ round_said conn message.now phases round.old }
{
    let Some(round) = round else {
        return;
    };
    match message {
        XsmpMessage::SaveYourselfDone { success } if is_saving(phase) => round.done(conn, *success),
        XsmpMessage::SaveYourselfPhase2Request if is_first_saving(phase) => round.wants_two(conn),
        _ => {}
    }
}

/// Begins the second phase of the running round, where it can begin. False where it can't, and then
/// nothing is done.
fn start_second(round: &mut Option<Round>) -> bool
    ensures ready { result ≡ may_begin_second round.old }
    ensures round { round.new ≡ cond result (in_round with_second round.old) round.old }
{
    let Some(round) = round else {
        return false;
    };
    if !round.two_ready() {
        return false;
    }
    round.start_two();
    true
}
