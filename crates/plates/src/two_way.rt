ghost use Rattle.plates.specs.TwoWays.{OneSource, Source};

use crate::plate::Plate;

// A plate whose steps can be walked backwards: no place of an element leads two cells to one target.
pub trait TwoWayPlate: Plate {
    // The cell that a place of an element leads to this cell, or none.
    fn back(&self, element: usize, place: usize, cell: usize) -> Option<usize>
        ensures { Source (Self.Plate.meaning self.now) element place cell result };

    ghost single: { (p : Self) → OneSource (Self.Plate.meaning p) };
}
