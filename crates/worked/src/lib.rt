#![tactic(auto)]

ghost use Rattle.worked.specs.Footprints.{Worked};

#[cfg(test)]
mod block_tests;
#[cfg(test)]
mod plan_tests;

// The worked footprints. The call does nothing; its contract is the theorem.
pub fn worked_footprints()
    ensures { Worked }
{}
