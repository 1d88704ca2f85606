ghost use Rattle.std.specs.Prelude.{◌≡◌, ◌≤◌, true, [], vec_len, vec_capacity};
ghost use Rattle.arrayvec.specs.ArrayVec.{array_vec_len};
ghost use Rattle.plans.specs.Vectors.{every, near, different};

use arrayvec::ArrayVec;
use grids::Vector;

// A list of at most 32 different vectors, with room for all of them in itself. That an `ArrayVec` keeps to its capacity is said again,
// since a clause sees its items alone.
#[derive(Drop)]
pub(crate) struct VectorList {
    pub(crate) items: ArrayVec<Vector, 32>,
    ghost few: { array_vec_len items ≤ 32 },
    ghost near: { every near items.items ≡ true },
    ghost apart: { different items.items ≡ true },
}

// By hand, since a derive does not prove the ghost facts of a struct.
impl Default for VectorList {
    ghost is_default = { λ list. list.items.items ≡ [] };

    fn default() -> VectorList {
        VectorList {
            items: ArrayVec::new(),
        }
    }
}

// The vectors of side 0 or side 1, and those of side 2.
#[derive(Default, Drop)]
pub(crate) struct Element {
    pub(crate) first: VectorList,
    pub(crate) second: VectorList,
}

// At most eight elements, with room for all of them, so that a plan takes its memory once.
#[derive(Drop)]
pub(crate) struct Table {
    pub(crate) elements: Vec<Element>,
    ghost few: { vec_len elements ≤ 8 },
    ghost room: { 8 ≤ vec_capacity elements },
}
