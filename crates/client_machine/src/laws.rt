ghost use Rattle.client_machine.specs.Laws.{AskedInItsPhase, LawfulStepsHaveTheirPlace};

/// Does nothing: its contract is a law for those who answer a client's saves. A client that was
/// asked is in the phase of the stage at which it was asked; and in the phase of a stage, be it
/// directly after it was asked or after it has talked, `ask` refuses exactly the steps that aren't
/// lawful there.
pub fn lawful_steps_have_their_place()
    ensures asked { AskedInItsPhase }
    ensures steps { LawfulStepsHaveTheirPlace }
{}
