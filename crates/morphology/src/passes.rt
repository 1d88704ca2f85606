ghost use Rattle.std.specs.Prelude.{◌≡◌, length};

use plates::Plate;

// A pass of an element over a picture that has one value for each cell of the plate. The memory that it writes is an argument of each
// method and no field: else each would have to promise that the other fields stay. The public moves take plate, element and two slices
// apart, since whether they fit is what a move judges first.
#[derive(Drop)]
pub(crate) struct Pass<'p, 'a, P: Plate, K> {
    pub(crate) plate: &'p P,
    pub(crate) element: usize,
    pub(crate) picture: &'a [K],
    ghost fits: { length picture.now ≡ (P.Plate.meaning plate.now).cells },
}

impl<'p, 'a, P: Plate, K> Pass<'p, 'a, P, K> {
    pub(crate) fn over(plate: &'p P, element: usize, picture: &'a [K]) -> Pass<'p, 'a, P, K>
        requires { length picture.now ≡ (P.Plate.meaning plate.now).cells }
        ensures plate { result.plate.now ≡ plate.now }
        ensures element { result.element ≡ element }
        ensures picture { result.picture.now ≡ picture.now }
    {
        Pass {
            plate,
            element,
            picture,
        }
    }
}
