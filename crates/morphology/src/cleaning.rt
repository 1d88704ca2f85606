ghost use Rattle.morphology.specs.Histories.{Called, move_number};
ghost use Rattle.morphology.specs.declared.words.Move.TheVariants.{Open, Close};

use crate::admission::admit;
use crate::faults::Refusal;
use crate::passes::Pass;
use kinds::Kind;
use plates::Plate;

// Opening and closing differ in which pass comes first: one function for both would take the passes as closures, and be longer.

// Opens the picture: erodes it into the working memory, and dilates that back into the picture. The working memory ends with the
// eroded picture. Refused as `dilate` is.
pub fn open<P: Plate, K: Kind>(
    plate: &P,
    element: usize,
    picture: &mut [K],
    work: &mut [K],
) -> Result<(), Refusal>
    ensures { Called K.Kind.values (P.Plate.meaning plate.now) (move_number Open) element result picture.old picture.new work.old work.new }
{
    admit(plate, element, picture.len(), work.len())?;
    Pass::over(plate, element, picture).gather(work);
    Pass::over(plate, element, work).scatter(picture);
    Ok(())
}

// Closes the picture: dilates it into the working memory, and erodes that back into the picture. The working memory ends with the
// dilated picture. Refused as `dilate` is.
pub fn close<P: Plate, K: Kind>(
    plate: &P,
    element: usize,
    picture: &mut [K],
    work: &mut [K],
) -> Result<(), Refusal>
    ensures { Called K.Kind.values (P.Plate.meaning plate.now) (move_number Close) element result picture.old picture.new work.old work.new }
{
    admit(plate, element, picture.len(), work.len())?;
    Pass::over(plate, element, picture).scatter(work);
    Pass::over(plate, element, work).gather(picture);
    Ok(())
}
