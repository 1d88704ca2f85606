ghost use Rattle.layers.specs.Layers.{reflected};
ghost use Rattle.layers.specs.Sources.{reflected_sound, reflected_single};

use plates::{Plate, TwoWayPlate};

// A two-way plate with every step turned round.
#[derive(Drop)]
pub struct Reflected<P> {
    pub lower: P,
}

// Where a step ends is where it starts in the plate below.
impl<P: TwoWayPlate> Plate for Reflected<P> {
    ghost meaning = { λ s. reflected (P.Plate.meaning s.lower) };

    ghost sound = { λ s. reflected_sound (P.Plate.meaning s.lower) (P.Plate.sound s.lower) };

    fn cells(&self) -> usize {
        self.lower.cells()
    }

    fn elements(&self) -> usize {
        self.lower.elements()
    }

    fn fan(&self, element: usize) -> usize {
        self.lower.fan(element)
    }

    fn target(&self, element: usize, place: usize, cell: usize) -> Option<usize> {
        self.lower.back(element, place, cell)
    }
}

impl<P: TwoWayPlate> TwoWayPlate for Reflected<P> {
    ghost single = { λ s. reflected_single (P.Plate.meaning s.lower) };

    fn back(&self, element: usize, place: usize, cell: usize) -> Option<usize> {
        self.lower.target(element, place, cell)
    }
}
