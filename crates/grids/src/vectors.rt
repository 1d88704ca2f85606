ghost use Rattle.std.specs.Prelude.{◌≡◌, Decides};
ghost use Rattle.grids.specs.Cells.{opposite, vector_sum};
ghost use Rattle.grids.specs.Shifts.{Adds};
ghost use Rattle.grids.specs.Vectors.{same};
ghost use Rattle.grids.specs.declared.vectors.Vector.{Vector};

// A step on the triangular grid: what it adds to the three coordinates of a cell.
#[derive(Clone, Copy, Default, PartialEq, Debug)]
pub struct Vector {
    pub a: i32,
    pub b: i32,
    pub c: i32,
}

// What a step adds to the column, the row and the sum of a cell.
#[derive(Clone, Copy)]
pub(crate) struct Shift {
    pub(crate) column: isize,
    pub(crate) row: isize,
    pub(crate) sum: isize,
}

impl Vector {
    // The sum of the three coordinates. `isize` has no `From<i32>`, so they are widened by `as`, which is proved to lose nothing.
    pub fn sum(self) -> isize
        ensures { result ≡ vector_sum self }
    {
        self.a as isize + self.b as isize + self.c as isize
    }

    // What the step by this vector adds.
    pub(crate) fn shift(self) -> Shift
        ensures { Adds self result }
    {
        Shift {
            column: self.a as isize,
            row: self.b as isize,
            sum: self.sum(),
        }
    }

    // What the step by the opposite vector adds. The opposite vector itself may not fit: the least `i32` has no opposite.
    pub(crate) fn shift_back(self) -> Shift
        ensures { Adds (opposite self) result }
    {
        let Shift { column, row, sum } = self.shift();
        Shift {
            column: -column,
            row: -row,
            sum: -sum,
        }
    }
}

// That `==` tells of two vectors whether their three coordinates agree, and so whether they are one vector. The call does nothing; its
// contract is the theorem.
#[tactic(auto, using(crate::proofs::SameVectors::same_decides))]
pub fn coordinates_decide()
    ensures agree { (u v : Vector) → ⟦<Vector as PartialEq>⟧.eq u v ≡ same u v }
    ensures decide { (u v : Vector) → Decides (⟦<Vector as PartialEq>⟧.eq u v) (u ≡ v) }
{}
