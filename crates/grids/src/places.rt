ghost use Rattle.std.specs.Prelude.{◌≡◌, ℕ, ◌↔◌, Some};
ghost use Rattle.grids.specs.Extents.{extent_of};
ghost use Rattle.grids.specs.Places.{moves, led, led_back};

use crate::shapes::Shape;
use crate::vectors::Vector;

// Which cells a place moves: every cell, the even ones (sum 0) or the odd ones (sum 1).
#[derive(Clone, Copy, PartialEq, Debug)]
pub enum Movers {
    Every,
    Even,
    Odd,
}

// A place of an element: it moves some cells by a vector.
#[derive(Clone, Copy, PartialEq, Debug)]
pub struct Place {
    pub movers: Movers,
    pub vector: Vector,
}

impl Movers {
    // Whether cells of a sum are moved.
    pub(crate) fn moves(self, sum: isize) -> bool
        ensures { result ≡ moves self sum }
    {
        match self {
            Movers::Every => true,
            Movers::Even => sum == 0,
            Movers::Odd => sum == 1,
        }
    }
}

impl Place {
    // The cell that the place leads a cell to; none where the cell is not of the plate, the place does not move it, or the step leaves
    // the plate.
    pub fn target(self, shape: Shape, cell: usize) -> Option<usize>
        ensures { result ≡ led (extent_of shape) self cell }
    {
        if cell < shape.cells() && self.movers.moves(shape.sum(cell)) {
            shape.stepped(self.vector, cell)
        } else {
            None
        }
    }

    // The one cell that the place leads to a cell; none where it leads no cell there. It is the cell that the opposite step leads to, if
    // the place moves that one.
    pub fn back(self, shape: Shape, cell: usize) -> Option<usize>
        ensures answer { result ≡ led_back (extent_of shape) self cell }
        ensures way { (c : ℕ) → (result ≡ Some c) ↔ (led (extent_of shape) self c ≡ Some cell) }
    {
        if cell >= shape.cells() {
            return None;
        }
        shape
            .stepped_back(self.vector, cell)
            .filter(|from| self.movers.moves(shape.sum(*from)))
    }
}
