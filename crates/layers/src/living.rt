// A plate with dead cells as a plate.
ghost use Rattle.layers.specs.Deaths.{dead_of};
ghost use Rattle.layers.specs.Layers.{without};
ghost use Rattle.layers.specs.LivingSteps.{without_sound, without_single};

use crate::dead::Dead;
use plates::{Plate, TwoWayPlate};

// The steps that start or end on a dead cell are absent.
impl<P: Plate> Plate for Dead<P> {
    ghost meaning = { λ s. without (dead_of s) (P.Plate.meaning s.lower) };

    ghost sound = { λ s. without_sound _ (P.Plate.meaning s.lower) (P.Plate.sound s.lower) };

    fn cells(&self) -> usize {
        self.lower.cells()
    }

    fn elements(&self) -> usize {
        self.lower.elements()
    }

    fn fan(&self, element: usize) -> usize {
        self.lower.fan(element)
    }

    // The hint, here and at the lines of a file: docs/DECISIONS.md.
    #[inline(always)]
    fn target(&self, element: usize, place: usize, cell: usize) -> Option<usize> {
        let start = self.alive(cell)?;
        let end = self.lower.target(element, place, start)?;
        self.alive(end)
    }
}

// Beside `target`, which asks another question of the plate below: one function for both would take that question as a closure.
impl<P: TwoWayPlate> TwoWayPlate for Dead<P> {
    ghost single = { λ s. without_single _ (P.Plate.meaning s.lower) (P.TwoWayPlate.single s.lower) };

    fn back(&self, element: usize, place: usize, cell: usize) -> Option<usize> {
        let end = self.alive(cell)?;
        let start = self.lower.back(element, place, end)?;
        self.alive(start)
    }
}
