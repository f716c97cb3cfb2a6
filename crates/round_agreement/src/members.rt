ghost use Rattle.std.specs.Prelude.{◌≡◌, ◌==◌, position, IsTrue};
ghost use Rattle.std.specs.List.{list_any};
ghost use Rattle.round_agreement.specs.Agreement.{is_nil as is_nil_list, conns_of, are_distinct, count_at, is_done as is_done_step, is_saving as is_saving_step, wants_two as wants_second, is_saved as is_saved_step, with_step as stepped, second_step, second_saving as second_member, with_second as all_second};

use crate::{Member, Step};
use sm_world::Conn;

impl Step {
    /// Whether it has saved, with success or without.
    pub fn is_done(self) -> bool
        ensures { result ≡ is_done_step self }
    {
        match self {
            Step::Saving => false,
            Step::WantsTwo => false,
            Step::SavingTwo => false,
            Step::Done(_) => true,
        }
    }

    /// Whether it saves, in the first phase or in the second.
    fn is_saving(self) -> bool
        ensures { result ≡ is_saving_step self }
    {
        match self {
            Step::Saving => true,
            Step::WantsTwo => false,
            Step::SavingTwo => true,
            Step::Done(_) => false,
        }
    }

    /// Whether it waits for the second phase.
    pub fn wants_two(self) -> bool
        ensures { result ≡ wants_second self }
    {
        match self {
            Step::Saving => false,
            Step::WantsTwo => true,
            Step::SavingTwo => false,
            Step::Done(_) => false,
        }
    }

    /// Whether it has saved with success.
    pub fn is_saved(self) -> bool
        ensures { result ≡ is_saved_step self }
    {
        match self {
            Step::Saving => false,
            Step::WantsTwo => false,
            Step::SavingTwo => false,
            Step::Done(success) => success,
        }
    }

    /// The step at the beginning of the second phase.
    fn second(self) -> Step
        ensures { result ≡ second_step self }
    {
        match self {
            Step::Saving => Step::Saving,
            Step::WantsTwo => Step::SavingTwo,
            Step::SavingTwo => Step::SavingTwo,
            Step::Done(success) => Step::Done(success),
        }
    }
}

impl Member {
    fn second(self) -> Member
        ensures { result ≡ second_member self }
    {
        Member {
            conn: self.conn,
            step: self.step.second(),
        }
    }
}

/// Whether there are no items.
#[tactic(auto, using(crate::proofs::MemberLaws::is_nil_law))]
pub(crate) fn is_nil<T>(items: &[T]) -> bool
    ensures { result ≡ is_nil_list items.now }
{
    items.is_empty()
}

/// How many members save, in the first phase or in the second.
pub(crate) fn count_saving(members: &[Member]) -> usize
    ensures { result ≡ count_at is_saving_step members.now }
{
    members.iter().filter(|m| m.step.is_saving()).count()
}

/// Whether a member waits for the second phase.
pub(crate) fn somebody_wants_two(members: &[Member]) -> bool
    ensures { result ≡ list_any (λ m. wants_second m.step) members.now }
{
    members.iter().any(|m| m.step.wants_two())
}

/// The place at which a connection stands first.
fn first_place_of(conns: &[Conn], conn: Conn) -> Option<usize>
    ensures { result ≡ position (λ other. other == conn) conns.now }
{
    conns.iter().position(|other| *other == conn)
}

/// The place of a connection. Members mostly stand in the order of their numbers, so it is looked
/// for by halving first.
fn place_of(conns: &[Conn], conn: Conn) -> Option<usize>
    requires { IsTrue (are_distinct conns.now) }
    ensures { result ≡ position (λ other. other == conn) conns.now }
{
    match conns.binary_search(&conn) {
        Ok(place) => Some(place),
        Err(_) => first_place_of(conns, conn),
    }
}

/// Brings the one member of a connection to a step. The members' connections are handed in beside
/// them, since they are searched quicker.
pub(crate) fn set_step(members: &mut [Member], conns: &[Conn], conn: Conn, step: Step)
    requires conns { conns.now ≡ conns_of members.old }
    requires distinct { IsTrue (are_distinct conns.now) }
    ensures { members.new ≡ stepped conn step members.old }
{
    if let Some(place) = place_of(conns, conn) {
        members[place] = Member { conn, step };
    }
}

/// Brings those that want the second phase into it.
pub(crate) fn set_second(members: &mut [Member])
    ensures { members.new ≡ all_second members.old }
{
    for member in members {
        *member = member.second();
    }
}
