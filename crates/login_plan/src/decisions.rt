ghost use Rattle.std.specs.Prelude.{◌≡◌, IfOk};
ghost use Rattle.login_plan.specs.Plans.{decided, first_offered as first_of, for_nobody as without_answer, numbered as kept_under};

use crate::finds::{is_behind, is_lost, must_ask, offered};
use checkpoint_records::Book;
use kept_books::Kept;
use owned_lists::{Duplicate, NoMemory};
use std::alloc::Global;

/// What was chosen for a login.
#[derive(Clone, Copy, Debug, PartialEq, Eq)]
pub enum Choice {
    /// Nothing, so far.
    Unasked,
    /// The present session.
    Stay,
    /// Nobody could be asked.
    Nobody,
    /// What is kept under this number.
    Back(u64),
    /// To begin anew.
    Anew,
}

/// What a login is to do.
#[derive(Drop)]
pub enum Decision {
    /// The user is asked first.
    Asks,
    /// The store and the shelf stay as they are.
    Leaves,
    /// The session begins as it is in the store.
    Stays,
    /// This comes back first.
    Restores(Kept),
    /// Nothing is kept under the number.
    Unknown,
    /// The session begins anew.
    Begins,
}

fn numbered(number: u64, shelf: &[Kept]) -> Result<Decision, NoMemory>
    ensures { IfOk result (λ decision. decision ≡ kept_under number shelf.now) }
{
    for kept in shelf {
        if kept.number == number {
            return Ok(Decision::Restores(kept.copy()?));
        }
    }
    Ok(Decision::Unknown)
}

fn first_offered(offers: &[Kept]) -> Result<Decision, NoMemory>
    ensures { IfOk result (λ decision. decision ≡ first_of offers.now) }
{
    match offers.first() {
        Some(kept) => Ok(Decision::Restores(kept.copy()?)),
        None => Ok(Decision::Stays),
    }
}

fn for_nobody(
    alloc: Global,
    name: &[u8],
    shelf: &[Kept],
    present: &Book,
) -> Result<Decision, NoMemory>
    ensures { IfOk result (λ decision. decision
        ≡ without_answer name.now shelf.now present.now) }
{
    if is_lost(shelf, present) {
        let offers = offered(alloc, name, shelf, present)?;
        return first_offered(offers.as_slice());
    }
    if is_behind(shelf, present) {
        Ok(Decision::Stays)
    } else {
        Ok(Decision::Leaves)
    }
}

/// What a login to the session is to do, by what was chosen.
pub fn decide(
    alloc: Global,
    choice: Choice,
    name: &[u8],
    shelf: &[Kept],
    present: &Book,
) -> Result<Decision, NoMemory>
    ensures { IfOk result (λ decision. decision
        ≡ decided choice name.now shelf.now present.now) }
{
    match choice {
        Choice::Unasked => {
            if must_ask(alloc, name, shelf, present)? {
                Ok(Decision::Asks)
            } else {
                Ok(Decision::Stays)
            }
        }
        Choice::Stay => Ok(Decision::Stays),
        Choice::Nobody => for_nobody(alloc, name, shelf, present),
        Choice::Back(number) => numbered(number, shelf),
        Choice::Anew => Ok(Decision::Begins),
    }
}
