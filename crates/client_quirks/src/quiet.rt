ghost use Rattle.std.specs.Prelude.{◌≡◌, ◌≤◌, [], length, Some, true, false, nat_lt, IfSome, IsTrue};
ghost use Rattle.frame_speech.specs.Passing.{from};
ghost use Rattle.late_answers.specs.Late.{is_calm};
ghost use Rattle.client_quirks.specs.declared.stage.Stage.TheVariants.{Free};
ghost use Rattle.client_quirks.specs.Quiet.{stirs as stirs_by, StirsNothing, IsQuiet, PassesAll, GoesOut};
ghost use Rattle.client_quirks.specs.declared.amender.Amender.{Amender as AnyAmender};
ghost use Rattle.client_quirks.specs.declared.answerer.Answerer.{Answerer as AnyAnswerer};
ghost use Rattle.client_quirks.specs.declared.keeper.Keeper.{Keeper as AnyKeeper};

use crate::amender::Amender;
use crate::answerer::{Answerer, Orders};
use crate::heeding::may_mean;
use crate::keeper::Keeper;
use crate::side::next_order;
use crate::stage::Stage;
use crate::tongue::{Tongue, is_about};
use frame_speech::{Heeds, Speech, are_passed};
use ice_values::Endian;

/// How both parties of a connection speak on which nothing is late, no logout runs and nothing is held
/// back: who hears the client and the manager need not look at most of their frames.
#[derive(Clone, Copy, Debug)]
pub struct Quiet {
    pub came: Tongue,
    pub sent: Tongue,
}

/// Whether a client's frame may stir anybody up who hears a quiet connection: it may be handed on otherwise
/// than it came, or is looked at.
fn stirs(speech: Speech, endian: Endian, frame: &[u8]) -> bool
    requires { 8 ≤ length frame.now }
    ensures { result ≡ stirs_by speech (record { endian = endian; bytes = frame.now }) }
{
    may_mean(speech, endian, frame) || is_about(true, speech, frame)
}

/// Looks for such frames.
impl Heeds for Tongue {
    ghost ignores = { λ tongue frame. StirsNothing tongue.speech frame };

    fn heeds(&self, endian: Endian, frame: &[u8]) -> bool {
        stirs(self.speech, endian, frame)
    }
}

/// Whether both speak XSMP under one opcode.
fn are_alike(one: Speech, other: Speech) -> bool
    ensures { IsTrue result → one ≡ other }
{
    match one {
        Speech::Speaks(opcode) => match other {
            Speech::Speaks(own) => opcode == own,
            Speech::Silent => false,
            Speech::Greeted => false,
            Speech::Lost => false,
        },
        Speech::Silent => false,
        Speech::Greeted => false,
        Speech::Lost => false,
    }
}

fn is_free(stage: Stage) -> bool
    ensures { IsTrue result → stage ≡ Free }
{
    match stage {
        Stage::Free => true,
        Stage::Asked => false,
        Stage::Answered => false,
        Stage::Kept => false,
        Stage::Released => false,
    }
}

/// Whether a client is followed, nothing of it is late, and it owes nothing to a logout.
fn is_idle(answerer: &Answerer, keeper: &Keeper) -> bool
    ensures follows { IsTrue result → answerer.now.follows ≡ true }
    ensures calm { IsTrue result → is_calm answerer.now.late ≡ true }
    ensures unpinged { IsTrue result → nat_lt 0 answerer.now.late.pings ≡ false }
    ensures free { IsTrue result → keeper.now.stage ≡ Free }
{
    if !answerer.follows {
        return false;
    }
    if !answerer.late.is_calm() {
        return false;
    }
    if answerer.late.pings > 0 {
        return false;
    }
    is_free(keeper.stage)
}

/// Whether all understand both parties alike.
fn agree(amender: &Amender, answerer: &Answerer, keeper: &Keeper) -> bool
    ensures came { IsTrue result → amender.now.speech ≡ answerer.now.came.speech }
    ensures heard { IsTrue result → amender.now.speech ≡ keeper.now.came.speech }
    ensures told { IsTrue result → answerer.now.sent.speech ≡ keeper.now.sent.speech }
{
    if !are_alike(amender.speech, answerer.came.speech) {
        return false;
    }
    if !are_alike(amender.speech, keeper.came.speech) {
        return false;
    }
    are_alike(answerer.sent.speech, keeper.sent.speech)
}

/// Whether both who follow a connection besides stand between two frames of these orders.
fn stand_in(answerer: &Answerer, keeper: &Keeper, came: Endian, sent: Endian) -> bool
    ensures came { IsTrue result → answerer.now.came.cutter ≡ Some (from came []) }
    ensures heard { IsTrue result → keeper.now.came.cutter ≡ Some (from came []) }
    ensures told { IsTrue result → keeper.now.sent.cutter ≡ Some (from sent []) }
{
    if !answerer.came.stands_in(came) {
        return false;
    }
    if !keeper.came.stands_in(came) {
        return false;
    }
    keeper.sent.stands_in(sent)
}

impl Quiet {
    /// How both parties speak, where all three who hear them understand them alike, stand between two frames
    /// of both, and have nothing to wait for.
    pub fn of(amender: &Amender, answerer: &Answerer, keeper: &Keeper) -> Option<Quiet>
        ensures { IfSome result (λ quiet. IsQuiet quiet amender.now answerer.now keeper.now) }
    {
        let came = next_order(&amender.cutter)?;
        let sent = answerer.sent.order()?;
        if !is_idle(answerer, keeper) {
            return None;
        }
        if !agree(amender, answerer, keeper) {
            return None;
        }
        if !stand_in(answerer, keeper, came, sent) {
            return None;
        }
        Some(Quiet {
            came: Tongue {
                speech: amender.speech,
                order: came,
            },
            sent: Tongue {
                speech: answerer.sent.speech,
                order: sent,
            },
        })
    }

    /// Whether a client's piece goes through all three as it came, nothing goes out and nothing else changes,
    /// so that it needn't be heard. This takes no memory.
    pub fn lets_pass(&self, piece: &[u8]) -> bool
        ensures { IsTrue result → (a : AnyAmender) (k : AnyAnswerer) (e : AnyKeeper) →
            IsQuiet self.now a k e → PassesAll a k e piece.now }
    {
        are_passed(&self.came, self.came.order, piece)
    }

    /// Whether these bytes of the manager's go out as they are, it hears nothing and nothing else changes, so
    /// that they needn't be told. This takes no memory.
    pub fn sends_on(&self, bytes: &[u8]) -> bool
        ensures { IsTrue result → (a : AnyAmender) (k : AnyAnswerer) (e : AnyKeeper) →
            IsQuiet self.now a k e → GoesOut k e bytes.now }
    {
        let orders = Orders {
            speech: self.sent.speech,
            calm: true,
        };
        are_passed(&orders, self.sent.order, bytes)
    }
}
