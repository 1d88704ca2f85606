// A grid as a two-way plate.
ghost use Rattle.std.specs.Prelude.{◌≡◌};
ghost use Rattle.grids.specs.Extents.{extent_of};
ghost use Rattle.plans.specs.Drawings.{extent_in, place_in, grid};
ghost use Rattle.plans.specs.Grids.{drawing_of};
ghost use Rattle.plans.specs.GridLaws.{grid_sound, grid_single};

use crate::grid::Grid;
use grids::{Place, Shape};
use plates::{Plate, TwoWayPlate};

impl Grid {
    // The size of the plate.
    pub fn shape(&self) -> Shape
        ensures { extent_of result ≡ extent_in (drawing_of self.now) }
    {
        self.outline.shape
    }

    // The place with a number of an element, if there is one.
    fn place(&self, element: usize, place: usize) -> Option<Place>
        ensures { result ≡ place_in (drawing_of self.now) element place }
    {
        self.table.place(self.outline.mode, element, place)
    }
}

impl Plate for Grid {
    ghost meaning = { λ s. grid (drawing_of s) };

    ghost sound = { grid_sound };

    fn cells(&self) -> usize {
        self.shape().cells()
    }

    fn elements(&self) -> usize {
        self.table.count()
    }

    fn fan(&self, element: usize) -> usize {
        self.table.fan(element)
    }

    fn target(&self, element: usize, place: usize, cell: usize) -> Option<usize> {
        self.place(element, place)?.target(self.shape(), cell)
    }
}

// Beside `target`, which asks another question of the place: one function for both would take that question as a closure.
impl TwoWayPlate for Grid {
    ghost single = { grid_single };

    fn back(&self, element: usize, place: usize, cell: usize) -> Option<usize> {
        self.place(element, place)?.back(self.shape(), cell)
    }
}
