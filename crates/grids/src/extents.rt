ghost use Rattle.std.specs.Prelude.{◌≡◌, IfSome};
ghost use Rattle.std.specs.Option.{option_map};
ghost use Rattle.grids.specs.Cells.{cell_count, Numbering};
ghost use Rattle.grids.specs.Extents.{lowest_sum, sum_count, extent_of, lawful_side, shaped};

use crate::shapes::{Form, Shape};

impl Form {
    // The lowest sum that the plate holds.
    pub(crate) fn lowest(self) -> isize
        ensures { result ≡ lowest_sum self }
    {
        match self {
            Form::Flat => 0,
            Form::Stack => -2,
        }
    }

    // How many sums the plate holds.
    pub(crate) fn sums(self) -> usize
        ensures { result ≡ sum_count self }
    {
        match self {
            Form::Flat => 2,
            Form::Stack => 6,
        }
    }
}

// Whether a plate may have so many columns, or rows.
fn is_lawful_side(side: usize) -> bool
    ensures { result ≡ lawful_side side }
{
    (1..=64).contains(&side)
}

impl Shape {
    // The shape of that form and size; none where the width or the height is not one of 1 to 64.
    pub fn new(form: Form, width: usize, height: usize) -> Option<Shape>
        ensures extent { option_map extent_of result ≡ shaped form width height }
        ensures form { IfSome result (λ g. g.form ≡ form) }
    {
        if is_lawful_side(width) && is_lawful_side(height) {
            Some(Shape {
                form,
                width,
                height,
            })
        } else {
            None
        }
    }

    // The number of cells: so many sums in each column of each row. The cells are numbered from 0 on, and numbers and cells fix each
    // other.
    #[tactic(auto, using(crate::proofs::Steps::numbering, crate::proofs::Sizes::sized))]
    pub fn cells(self) -> usize
        ensures count { result ≡ cell_count (extent_of self) }
        ensures numbering { Numbering (extent_of self) }
    {
        let sums = self.form.sums();
        sums * (self.width * self.height)
    }
}
