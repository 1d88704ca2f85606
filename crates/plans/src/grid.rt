ghost use Rattle.std.specs.Prelude.{◌≡◌, true};
ghost use Rattle.plans.specs.Drawings.{all_fair};
ghost use Rattle.plans.specs.Holdings.{elements_of};

use crate::outline::Outline;
use crate::tables::Table;

// A grid plate with its elements.
#[derive(Drop)]
pub struct Grid {
    pub(crate) outline: Outline,
    pub(crate) table: Table,
    ghost fair: { all_fair outline.mode (elements_of table) ≡ true },
}
