ghost use Rattle.morphology.specs.Statements.{HistoriesHoldEverywhere};

use kinds::Kind;

// What holds of every history of a footprint of one kind, on every plate: more rubber never counts as less, dilating and eroding are
// adjoint, cleaning twice is cleaning once. The call does nothing; its contract is the theorem.
pub fn histories_hold<K: Kind>()
    ensures { HistoriesHoldEverywhere K.Kind.values }
{}
