ghost use Rattle.std.specs.Prelude.{◌≡◌, [], ◌∷◌, true, false, IfOk};
ghost use Rattle.round_agreement.specs.Agreement.{all_saving};
ghost use Rattle.round_agreement.specs.declared.round.Step.TheVariants.{WantsTwo, SavingTwo, Done};

use ice_values::{SaveKind, SaveStyle};
use owned_lists::NoMemory;
use round_agreement::{Round, Wanted};
use sm_world::ConnList;
use std::alloc::Global;

/// What the operator's order checkpoint asks for.
pub fn checkpoint() -> Wanted {
    Wanted {
        only: None,
        from: None,
        kind: SaveKind::Local,
        shutdown: false,
        style: SaveStyle::Nothing,
        fast: false,
    }
}

/// A checkpoint of three connections, all of which save.
pub fn three(alloc: Global) -> Result<Round, NoMemory>
    ensures { IfOk result (λ round. round.members ≡ all_saving (1 ∷ 2 ∷ 3 ∷ [])) }
{
    let mut conns = ConnList::new(alloc);
    conns.push(1)?;
    conns.push(2)?;
    conns.push(3)?;
    Round::begin(alloc, conns, checkpoint())
}

/// The same where the first is done, the second wants to save in the second phase, and the third's save
/// failed.
pub fn half_done(alloc: Global) -> Result<Round, NoMemory>
    ensures { IfOk result (λ round.
        round.members ≡ (record { conn = 1; step = Done true })
        ∷ (record { conn = 2; step = WantsTwo }) ∷ (record { conn = 3; step = Done false }) ∷ []) }
{
    let mut round = three(alloc)?;
    round.done(1, true);
    round.wants_two(2);
    round.done(3, false);
    Ok(round)
}

/// The second phase of that round, after the third left.
pub fn second_phase(alloc: Global) -> Result<Round, NoMemory>
    ensures { IfOk result (λ round.
        round.members ≡ (record { conn = 1; step = Done true })
        ∷ (record { conn = 2; step = SavingTwo }) ∷ []) }
{
    let mut round = half_done(alloc)?;
    round.leave(3);
    round.start_two();
    Ok(round)
}
