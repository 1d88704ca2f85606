ghost use Rattle.std.specs.Prelude.{◌≡◌, true};
ghost use Rattle.layers.specs.Deaths.{dead_of};
ghost use Rattle.plates.specs.Lists.{below};
ghost use Rattle.grids.specs.Cells.{cell_count};
ghost use Rattle.plans.specs.Drawings.{extent_in};
ghost use Rattle.plans.specs.Grids.{drawing_of};

use crate::grid::Grid;
use layers::Dead;

// A plan: a mode, a size, elements with their vectors, and dead cells. It owns the plate that it gives.
#[derive(Drop)]
pub struct Plan {
    pub(crate) plate: Dead<Grid>,
    ghost within: { below (cell_count (extent_in (drawing_of plate.lower))) (dead_of plate) ≡ true },
}
