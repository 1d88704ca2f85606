ghost use Rattle.std.specs.Prelude.{◌≡◌};
ghost use Rattle.readers.specs.Reading.{first, without_plan};
ghost use Rattle.readers.specs.declared.faults.NoJob.TheVariants.{Refused, Memory};

use jobs::{FileFault, Stop};
use plans::NoPlan;
use std::alloc::AllocError;

// Why no job is read: the file is refused, or memory is wanting.
#[derive(Clone, Copy, PartialEq, Debug)]
pub enum NoJob {
    Refused(Stop),
    Memory,
}

// A fault of line 1.
pub(crate) fn first(fault: FileFault) -> Stop
    ensures { result ≡ first fault }
{
    Stop { fault, line: 1 }
}

// The conversions are written out, since clauses name the case that `?` gives.
impl From<Stop> for NoJob {
    ghost from_gives = { λ s r. r ≡ Refused s };

    fn from(stop: Stop) -> NoJob {
        NoJob::Refused(stop)
    }
}

// Only line 1 asks for a plan.
impl From<NoPlan> for NoJob {
    ghost from_gives = { λ n r. r ≡ without_plan n };

    fn from(reason: NoPlan) -> NoJob {
        match reason {
            NoPlan::Refused(fault) => NoJob::Refused(first(FileFault::Plan(fault))),
            NoPlan::Memory => NoJob::Memory,
        }
    }
}

impl From<AllocError> for NoJob {
    ghost from_gives = { λ _ r. r ≡ Memory };

    fn from(_error: AllocError) -> NoJob {
        NoJob::Memory
    }
}
