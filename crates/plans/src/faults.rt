ghost use Rattle.std.specs.Prelude.{◌≡◌};
ghost use Rattle.plans.specs.Faults.{plan_fault_number};
ghost use Rattle.plans.specs.declared.faults.NoPlan.TheVariants.{Refused, Memory};
ghost use Rattle.plans.specs.declared.faults.PlanFault.TheVariants.{Kill};

use layers::KillFault;
use std::alloc::AllocError;

// Why a call on a plan is refused.
#[derive(Clone, Copy, PartialEq, Debug)]
pub enum PlanFault {
    Mode,
    Size,
    Side,
    Coordinate,
    Sum,
    Listed,
    Elements,
    Vectors,
    NoElement,
    Kill(KillFault),
}

// Why no plan is made: it is refused, or memory is wanting.
#[derive(Clone, Copy, PartialEq, Debug)]
pub enum NoPlan {
    Refused(PlanFault),
    Memory,
}

impl PlanFault {
    // The number of the refusal. By a `match`, since a case that holds a value has no discriminant to cast.
    pub fn number(self) -> u8
        ensures { result ≡ plan_fault_number self }
    {
        match self {
            PlanFault::Mode => 10,
            PlanFault::Size => 11,
            PlanFault::Side => 12,
            PlanFault::Coordinate => 13,
            PlanFault::Sum => 14,
            PlanFault::Listed => 15,
            PlanFault::Elements => 16,
            PlanFault::Vectors => 19,
            PlanFault::NoElement => 23,
            PlanFault::Kill(fault) => fault.number(),
        }
    }
}

// The conversions are by hand, since the contracts name the case that `?` makes, and a derived one promises none.
impl From<KillFault> for PlanFault {
    ghost from_gives = { λ f r. r ≡ Kill f };

    fn from(fault: KillFault) -> PlanFault {
        PlanFault::Kill(fault)
    }
}

impl From<PlanFault> for NoPlan {
    ghost from_gives = { λ f r. r ≡ Refused f };

    fn from(fault: PlanFault) -> NoPlan {
        NoPlan::Refused(fault)
    }
}

impl From<AllocError> for NoPlan {
    ghost from_gives = { λ _ r. r ≡ Memory };

    fn from(_error: AllocError) -> NoPlan {
        NoPlan::Memory
    }
}
