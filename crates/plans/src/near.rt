ghost use Rattle.std.specs.Prelude.{◌≡◌, true, false, MatchResult};
ghost use Rattle.plans.specs.Vectors.{is_coordinate, near};
ghost use Rattle.plans.specs.declared.faults.PlanFault.TheVariants as fault;

use crate::faults::PlanFault;
use grids::Vector;

// A vector whose coordinates are each one of -63 to 63.
#[derive(Clone, Copy)]
pub(crate) struct NearVector {
    pub(crate) vector: Vector,
    ghost near: { near vector ≡ true },
}

fn is_coordinate(n: i32) -> bool
    ensures { result ≡ is_coordinate n }
{
    (-63..=63).contains(&n)
}

fn is_near(v: Vector) -> bool
    ensures { result ≡ near v }
{
    is_coordinate(v.a) && is_coordinate(v.b) && is_coordinate(v.c)
}

impl TryFrom<Vector> for NearVector {
    type Error = PlanFault;

    ghost try_from_gives = { λ v r. MatchResult r (λ n. n.vector ≡ v) (λ f. (f ≡ fault.Coordinate) × (near v ≡ false)) };

    fn try_from(vector: Vector) -> Result<NearVector, PlanFault> {
        if is_near(vector) {
            Ok(NearVector { vector })
        } else {
            Err(PlanFault::Coordinate)
        }
    }
}
