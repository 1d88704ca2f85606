ghost use Rattle.std.specs.Prelude.{◌≡◌, ok_or};
ghost use Rattle.plans.specs.Modes.{mode_of, mode_number, form_of, side_of, first_movers, allowed};
ghost use Rattle.plans.specs.declared.faults.PlanFault.TheVariants as fault;

use crate::faults::PlanFault;
use grids::{Form, Movers};

// The modes of a plan. The first three have the flat plate, the strong one the stack plate.
#[derive(Clone, Copy, PartialEq, Debug)]
pub enum Mode {
    Strict = 1,
    Weak = 2,
    Independent = 3,
    Strong = 4,
}

// The two lists of an element: the first is side 0 or side 1, the second side 2.
#[derive(Clone, Copy, PartialEq, Debug)]
pub enum Side {
    First,
    Second,
}

// The mode with a number. Refuses a number that is not 1 to 4.
impl TryFrom<usize> for Mode {
    type Error = PlanFault;

    ghost try_from_gives = { λ number r. r ≡ ok_or (mode_of number) fault.Mode };

    fn try_from(number: usize) -> Result<Mode, PlanFault> {
        match number {
            1 => Ok(Mode::Strict),
            2 => Ok(Mode::Weak),
            3 => Ok(Mode::Independent),
            4 => Ok(Mode::Strong),
            _ => Err(PlanFault::Mode),
        }
    }
}

impl Mode {
    // The number of the mode.
    pub fn number(self) -> usize
        ensures { result ≡ mode_number self }
    {
        self as usize
    }

    // The form of the plate.
    pub(crate) fn form(self) -> Form
        ensures { result ≡ form_of self }
    {
        match self {
            Mode::Strict | Mode::Weak | Mode::Independent => Form::Flat,
            Mode::Strong => Form::Stack,
        }
    }

    // The list that the number of a side means, or none.
    pub(crate) fn side(self, number: usize) -> Option<Side>
        ensures { result ≡ side_of self number }
    {
        match (self, number) {
            (Mode::Strict | Mode::Weak | Mode::Strong, 0) => Some(Side::First),
            (Mode::Independent, 1) => Some(Side::First),
            (Mode::Independent, 2) => Some(Side::Second),
            _ => None,
        }
    }

    // The cells that the first list of an element moves.
    pub(crate) fn first_movers(self) -> Movers
        ensures { result ≡ first_movers self }
    {
        match self {
            Mode::Independent => Movers::Even,
            Mode::Strict | Mode::Weak | Mode::Strong => Movers::Every,
        }
    }

    // Whether a list takes vectors of that sum.
    pub(crate) fn allows(self, side: Side, sum: isize) -> bool
        ensures { result ≡ allowed self side sum }
    {
        matches!(
            (self, side, sum),
            (Mode::Strict, Side::First, 0)
                | (Mode::Weak | Mode::Independent, Side::First, 0..=1)
                | (Mode::Independent, Side::Second, -1..=0)
                | (Mode::Strong, Side::First, -1..=1)
        )
    }
}
