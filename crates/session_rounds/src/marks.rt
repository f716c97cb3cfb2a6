ghost use Rattle.std.specs.Prelude.{◌≡◌, List, Option, ℕ};
ghost use Rattle.round_agreement.specs.declared.wanted.Wanted.{Wanted as AWanted};
ghost use Rattle.session_model.specs.Moves.{Agreed as IsAgreed, Began as HasBegun, Cancelled as IsCancelled, Over as IsOver};
ghost use Rattle.session_model.specs.Readings.{is_global_round, marks_after};

use round_agreement::Wanted;
use session_model::Marks;

/// Whether a round that runs is one of all clients.
fn is_global(wanted: Option<Wanted>) -> bool
    ensures { result ≡ is_global_round wanted }
{
    wanted.is_some_and(|wanted| wanted.only.is_none())
}

/// A round begins, for this.
pub(crate) fn begun(marks: Marks, wanted: Wanted) -> Marks
    ensures { (conns : List ℕ) (purpose : Option AWanted) →
        result ≡ marks_after (HasBegun conns wanted) purpose marks }
{
    if wanted.only.is_some() {
        return marks;
    }
    Marks {
        begun: marks.begun.saturating_add(1),
        ended: marks.ended,
        agreed: marks.agreed,
    }
}

/// A round ends without an agreement.
pub(crate) fn ended(marks: Marks, wanted: Option<Wanted>) -> Marks
    ensures over { result ≡ marks_after IsOver wanted marks }
    ensures cancelled { result ≡ marks_after IsCancelled wanted marks }
{
    if !is_global(wanted) {
        return marks;
    }
    Marks {
        begun: marks.begun,
        ended: marks.begun,
        agreed: marks.agreed,
    }
}

/// A round is agreed.
pub(crate) fn agreed(marks: Marks, wanted: Option<Wanted>) -> Marks
    ensures { result ≡ marks_after IsAgreed wanted marks }
{
    if !is_global(wanted) {
        return marks;
    }
    Marks {
        begun: marks.begun,
        ended: marks.begun,
        agreed: marks.begun,
    }
}
