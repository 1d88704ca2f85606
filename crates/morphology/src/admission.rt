ghost use Rattle.std.specs.Prelude.{◌≡◌, OnOk};
ghost use Rattle.morphology.specs.Histories.{admitted};

use crate::faults::Refusal;
use plates::Plate;

// The checks of every move, in their order, at a picture and a working memory of these lengths.
pub(crate) fn admit<P: Plate>(
    plate: &P,
    element: usize,
    picture: usize,
    memory: usize,
) -> Result<(), Refusal>
    ensures answer { result ≡ admitted (P.Plate.meaning plate.now) picture memory element }
    ensures fits { OnOk result ((picture ≡ (P.Plate.meaning plate.now).cells) × (memory ≡ (P.Plate.meaning plate.now).cells)) }
{
    let cells = plate.cells();
    if picture != cells {
        return Err(Refusal::PictureLength);
    }
    if memory != cells {
        return Err(Refusal::MemoryLength);
    }
    if element >= plate.elements() {
        return Err(Refusal::NoElement);
    }
    Ok(())
}
