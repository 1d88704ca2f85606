ghost use Rattle.std.specs.Prelude.{◌≡◌, ◌<◌, length};
ghost use Rattle.morphology.specs.Histories.{Called, move_number};
ghost use Rattle.morphology.specs.Moves.{reached, dilated};
ghost use Rattle.morphology.specs.Passes.{Spread};
ghost use Rattle.morphology.specs.Pictures.{at};
ghost use Rattle.morphology.specs.declared.words.Move.TheVariants.{Dilate};

use crate::admission::admit;
use crate::faults::Refusal;
use crate::filling::fill;
use crate::passes::Pass;
use kinds::Kind;
use plates::Plate;

impl<P: Plate, K: Kind> Pass<'_, '_, P, K> {
    // Joins a value into every cell that the steps of one cell reach. A step without a target is skipped.
    fn spread(&self, cell: usize, value: K, work: &mut [K])
        requires { length work.old ≡ (P.Plate.meaning self.now.plate.now).cells }
        ensures { Spread K.Kind.values (reached (P.Plate.meaning self.now.plate.now) self.now.element cell) value work.old work.new }
    {
        // A `for` over the chain that `met` folds gets no proof: where its closure is generic, what is generated for the loop is refused.
        for place in 0..self.plate.fan(self.element) {
            if let Some(target) = self.plate.target(self.element, place, cell) {
                work[target] = work[target].join(value);
            }
        }
    }

    // The same of the value that the picture has for the cell.
    fn spread_cell(&self, cell: usize, work: &mut [K])
        requires within { cell < length self.now.picture.now }
        requires long { length work.old ≡ (P.Plate.meaning self.now.plate.now).cells }
        ensures { Spread K.Kind.values (reached (P.Plate.meaning self.now.plate.now) self.now.element cell) (at K.Kind.values self.now.picture.now cell) work.old work.new }
    {
        self.spread(cell, self.picture[cell], work);
    }

    // Dilates the picture into another: each cell is spread to the cells that its steps reach.
    pub(crate) fn scatter(&self, work: &mut [K])
        requires { length work.old ≡ (P.Plate.meaning self.now.plate.now).cells }
        ensures { work.new ≡ dilated K.Kind.values (P.Plate.meaning self.now.plate.now) self.now.element self.now.picture.now }
    {
        fill(work, K::least());
        for cell in 0..self.picture.len() {
            self.spread_cell(cell, work);
        }
    }
}

// Dilates the picture: each cell then holds the join of all cells with a step to it, and so does the working memory.
// Refused where the picture or the working memory has not one value for each cell, or the plate has no such element; nothing is
// altered then.
pub fn dilate<P: Plate, K: Kind>(
    plate: &P,
    element: usize,
    picture: &mut [K],
    work: &mut [K],
) -> Result<(), Refusal>
    ensures { Called K.Kind.values (P.Plate.meaning plate.now) (move_number Dilate) element result picture.old picture.new work.old work.new }
{
    admit(plate, element, picture.len(), work.len())?;
    Pass::over(plate, element, picture).scatter(work);
    picture.copy_from_slice(work);
    Ok(())
}
