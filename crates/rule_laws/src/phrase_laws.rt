//! What the phrases of a body demand, each demand with its code, and the diagnostics that follow: those that a check of
//! the body finds.
ghost use Rattle.rule_laws.specs.PhraseLaws.{FaultLaws, WellLaws};

/// A phrase is at fault if the first of its demands that fails says so, and a check of a body finds these faults.
pub fn fault_laws()
    ensures { FaultLaws }
{}

/// A phrase is well if all its demands hold, and a statement throughout if each statement in it is.
pub fn well_laws()
    ensures { WellLaws }
{}
