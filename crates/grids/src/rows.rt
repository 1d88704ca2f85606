ghost use Rattle.std.specs.Prelude.{◌≡◌, length, IfOk};
ghost use Rattle.grids.specs.Cells.{cell_count};
ghost use Rattle.grids.specs.Extents.{extent_of};
ghost use Rattle.grids.specs.WideRows.{row_fault_number, row_length, row_count, row_counts, wider, widest_of, widest_row, Widest, ByRows};

use crate::shapes::Shape;
use kinds::Kind;
use morphology::area;

// A row of a grid plate, and how many of its cells are not least.
#[derive(Clone, Copy, PartialEq, Debug)]
pub struct Row {
    pub y: usize,
    pub count: usize,
}

// Why there is no widest row: the picture has not one value for each cell.
#[derive(Clone, Copy, PartialEq, Debug)]
pub enum RowFault {
    PictureLength = 21,
}

impl RowFault {
    // The number of the refusal.
    pub fn number(self) -> u8
        ensures { result ≡ row_fault_number self }
    {
        self as u8
    }
}

// The wider of the best row so far and one more row; the best so far where they are equal.
fn wider(best: Option<Row>, row: Row) -> Option<Row>
    ensures { result ≡ wider best row }
{
    if row.count > best.map_or(0, |best| best.count) {
        Some(row)
    } else {
        best
    }
}

impl Shape {
    // How many cells a row has.
    fn row_length(self) -> usize
        ensures { result ≡ row_length (extent_of self) }
    {
        self.form.sums() * self.width
    }

    // The row with the most cells that are not least, the lowest among equals; none where every cell is least.
    fn widest_row<K: Kind>(self, picture: &[K]) -> Option<Row>
        requires { length picture.now ≡ cell_count (extent_of self) }
        ensures { result ≡ widest_of (row_counts K.Kind.values (extent_of self) picture.now) }
    {
        picture
            .chunks_exact(self.row_length())
            .enumerate()
            .map(|(y, row)| Row {
                y,
                count: area(row),
            })
            .fold(None, wider)
    }

    // The row with the most cells that are not least, the lowest among equals; none where every cell is least. Refused where the
    // picture has not one value for each cell.
    #[tactic(auto, using(crate::proofs::RowCells::by_rows, crate::proofs::Sizes::sized, crate::proofs::WidestRows::widest_is))]
    pub fn widest<K: Kind>(self, picture: &[K]) -> Result<Option<Row>, RowFault>
        ensures answer { result ≡ widest_row K.Kind.values (extent_of self) picture.now }
        ensures widest { IfOk result (Widest self.height (row_count K.Kind.values (extent_of self) picture.now)) }
        ensures rows { ByRows (extent_of self) picture.now }
    {
        if picture.len() != self.cells() {
            return Err(RowFault::PictureLength);
        }
        Ok(self.widest_row(picture))
    }
}
