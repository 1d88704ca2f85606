// How many lines a job has. Plan, picture and records are no struct: it would be made for one call, and the definitions have `job_of`.
ghost use Rattle.std.specs.Prelude.{◌≡◌, ◌*◌, ◌≤◌, [], length, nat_le};
ghost use Rattle.plans.specs.Plans.{design_of, cells_in};
ghost use Rattle.jobs.specs.Jobs.{job_lines};
ghost use Rattle.writers.specs.Writing.{lines_of_element, lines_of_elements, job_of};

use kinds::WrittenKind;
use morphology::{Record, area};
use plans::{Plan, Side};

// The lines of one element.
fn element_lines(plan: &Plan, element: usize) -> usize
    ensures count { result ≡ length (lines_of_element (design_of plan.now) element) }
    ensures few { result ≤ 65 }
{
    1 + plan.vectors(element, Side::First).len() + plan.vectors(element, Side::Second).len()
}

// The lines of all elements.
fn elements_lines(plan: &Plan) -> usize
    ensures count { result ≡ length (lines_of_elements (design_of plan.now)) }
    ensures few { result ≤ 520 }
{
    (0..plan.elements())
        .map(|element| element_lines(plan, element))
        .sum()
}

// The lines of a job without moves.
fn lines_before_moves<K: WrittenKind>(plan: &Plan, picture: &[K]) -> usize
    requires { length picture.now ≡ cells_in (design_of plan.now) }
    ensures count { result ≡ length (job_lines K.Kind.values K.WrittenKind.written (job_of (design_of plan.now) picture.now [])) }
    ensures few { result ≤ 25162 }
{
    2 + elements_lines(plan) + plan.dead_cells().len() + area(picture)
}

// Whether an output of that length has 29 bytes for each line.
pub(crate) fn has_room<K: WrittenKind>(
    plan: &Plan,
    picture: &[K],
    records: &[Record],
    size: usize,
) -> bool
    requires { length picture.now ≡ cells_in (design_of plan.now) }
    ensures { result ≡ nat_le (29 * length (job_lines K.Kind.values K.WrittenKind.written (job_of (design_of plan.now) picture.now records.now))) size }
{
    let room = size / 29;
    records.len() <= room && lines_before_moves(plan, picture) + records.len() <= room
}
