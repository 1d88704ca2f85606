ghost use Rattle.std.specs.Prelude.{◌<◌, ◌≤◌, vec_len};
ghost use Rattle.std.specs.List.{All};
ghost use Rattle.arrayvec.specs.ArrayVec.{array_vec_len};

use arrayvec::ArrayVec;

// A plate of 1 to 256 tread blocks with one element. Place 0 leads a block to itself, and places 1 to 7 to its neighbours in
// order of entry, which are its row. The rows are one allocation.
#[derive(Drop)]
pub struct BlockPlate {
    pub(crate) rows: Vec<ArrayVec<usize, 7>>,
    ghost some: { 1 ≤ vec_len rows },
    ghost few: { vec_len rows ≤ 256 },
    // Said again, since of a row a clause sees its list alone, and not that seven is all that it can hold.
    ghost narrow: { All (λ row. array_vec_len row ≤ 7) rows.items },
    ghost within: { All (λ row. All (λ block. block < vec_len rows) row.items) rows.items },
}
