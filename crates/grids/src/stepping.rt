ghost use Rattle.std.specs.Prelude.{◌≡◌, ◌<◌, pos, ◌+ℤ◌};
ghost use Rattle.grids.specs.Cells.{below, number_at, sum_at, stepped, opposite};
ghost use Rattle.grids.specs.Extents.{extent_of};
ghost use Rattle.grids.specs.Shifts.{shifted};

use crate::shapes::Shape;
use crate::vectors::{Shift, Vector};

// at + by, if that is one of 0 to size - 1.
fn shifted_within(at: usize, by: isize, size: usize) -> Option<usize>
    ensures { result ≡ below (pos at +ℤ by) size }
{
    at.checked_add_signed(by).filter(|to| *to < size)
}

impl Shape {
    // The sum of the cell with a number.
    pub(crate) fn sum(self, cell: usize) -> isize
        ensures { result ≡ sum_at (extent_of self) cell }
    {
        self.form.lowest() + (cell % self.form.sums()) as isize
    }

    // The number of the cell in a column and a row with the layer-th sum, counted from 0.
    fn number(self, column: usize, row: usize, layer: usize) -> usize
        requires column { column < (extent_of self).width }
        requires row { row < (extent_of self).height }
        requires layer { layer < (extent_of self).sums }
        ensures { result ≡ number_at (extent_of self) column row layer }
    {
        self.form.sums() * (row * self.width + column) + layer
    }

    // Where a shift of its column, row and sum leads the cell with a number; none where it leaves the plate.
    fn shifted(self, by: Shift, cell: usize) -> Option<usize>
        ensures { result ≡ shifted (extent_of self) by cell }
    {
        let sums = self.form.sums();
        let place = cell / sums;
        let column = shifted_within(place % self.width, by.column, self.width)?;
        let row = shifted_within(place / self.width, by.row, self.height)?;
        let layer = shifted_within(cell % sums, by.sum, sums)?;
        Some(self.number(column, row, layer))
    }

    // Where the step by a vector leads the cell with a number; none where it leaves the plate.
    pub(crate) fn stepped(self, by: Vector, cell: usize) -> Option<usize>
        ensures { result ≡ stepped (extent_of self) by cell }
    {
        self.shifted(by.shift(), cell)
    }

    // Where the opposite step leads it: no call of `stepped`, since the opposite vector may not fit.
    pub(crate) fn stepped_back(self, by: Vector, cell: usize) -> Option<usize>
        ensures { result ≡ stepped (extent_of self) (opposite by) cell }
    {
        self.shifted(by.shift_back(), cell)
    }
}
