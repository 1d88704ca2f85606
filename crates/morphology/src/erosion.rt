ghost use Rattle.std.specs.Prelude.{◌≡◌, length};
ghost use Rattle.morphology.specs.Histories.{Called, move_number};
ghost use Rattle.morphology.specs.Moves.{eroded_at, eroded};
ghost use Rattle.morphology.specs.declared.words.Move.TheVariants.{Erode};

use crate::admission::admit;
use crate::faults::Refusal;
use crate::passes::Pass;
use kinds::Kind;
use plates::Plate;

impl<P: Plate, K: Kind> Pass<'_, '_, P, K> {
    // The meet of all cells that the steps of one cell reach. A step without a target is skipped, and spoils nothing.
    fn met(&self, cell: usize) -> K
        ensures { result ≡ eroded_at K.Kind.values (P.Plate.meaning self.now.plate.now) self.now.element self.now.picture.now cell }
    {
        (0..self.plate.fan(self.element))
            .filter_map(|place| self.plate.target(self.element, place, cell))
            .fold(K::greatest(), |met, target| met.meet(self.picture[target]))
    }

    // What a cell holds after the erosion.
    fn eroded(&self, cell: usize) -> K
        ensures { result ≡ eroded_at K.Kind.values (P.Plate.meaning self.now.plate.now) self.now.element self.now.picture.now cell }
    {
        self.met(cell)
    }

    // Erodes the picture into another: each cell gathers from the cells that its steps reach.
    pub(crate) fn gather(&self, work: &mut [K])
        requires { length work.old ≡ (P.Plate.meaning self.now.plate.now).cells }
        ensures { work.new ≡ eroded K.Kind.values (P.Plate.meaning self.now.plate.now) self.now.element self.now.picture.now }
    {
        for (cell, value) in work.iter_mut().enumerate() {
            *value = self.eroded(cell);
        }
    }
}

// Beside `dilate`, with the other pass: one function for both would take the pass as a closure, and be longer.
// Erodes the picture: each cell then holds the meet of all cells that its own steps reach, and so does the working memory.
// Refused where the picture or the working memory has not one value for each cell, or the plate has no such element; nothing is
// altered then.
pub fn erode<P: Plate, K: Kind>(
    plate: &P,
    element: usize,
    picture: &mut [K],
    work: &mut [K],
) -> Result<(), Refusal>
    ensures { Called K.Kind.values (P.Plate.meaning plate.now) (move_number Erode) element result picture.old picture.new work.old work.new }
{
    admit(plate, element, picture.len(), work.len())?;
    Pass::over(plate, element, picture).gather(work);
    picture.copy_from_slice(work);
    Ok(())
}
