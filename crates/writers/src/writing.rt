// How a job is written.
ghost use Rattle.std.specs.Prelude.{◌≡◌, ◌*◌, ◌≤◌, map, length, OnOk};
ghost use Rattle.plans.specs.Plans.{design_of};
ghost use Rattle.jobs.specs.Jobs.{fair_order, all_fair, job_lines, encode};
ghost use Rattle.jobs.specs.Files.{JobAndFile};
ghost use Rattle.writers.specs.Writing.{with_lines, asked, job_of, write_answer, output_after, ReadsBack};

use crate::counting::has_room;
use crate::putting::put_lines;
use crate::rows::{cell_line, dead_line, elem_line, last_line, move_line, plat_line, vect_line};
use jobs::{WriteFault, first_side};
use kinds::WrittenKind;
use morphology::Record;
use plans::{Plan, Side};
use std::iter::once;

// Whether a file can carry the move of a record: it is 1 to 4, by an element up to 99.
fn is_fair(item: Record) -> bool
    ensures { result ≡ fair_order (asked item) }
{
    (1..=4).contains(&item.action) && item.element <= 99
}

fn all_fair(records: &[Record]) -> bool
    ensures { result ≡ all_fair (map asked records.now) }
{
    records.iter().all(|item| is_fair(*item))
}

// Writes all lines of a job.
fn put_job<K: WrittenKind>(plan: &Plan, picture: &[K], records: &[Record], out: &mut [u8]) -> usize
    requires { 29 * length (job_lines K.Kind.values K.WrittenKind.written (job_of (design_of plan.now) picture.now records.now)) ≤ length out.old }
    ensures end { result ≡ 29 * length (job_lines K.Kind.values K.WrittenKind.written (job_of (design_of plan.now) picture.now records.now)) }
    ensures bytes { out.new ≡ with_lines out.old (job_lines K.Kind.values K.WrittenKind.written (job_of (design_of plan.now) picture.now records.now)) }
{
    let side = first_side(plan.mode());
    let elements = (0..plan.elements()).flat_map(|element| {
        let first = plan.vectors(element, Side::First).iter();
        let second = plan.vectors(element, Side::Second).iter();
        once(elem_line(element))
            .chain(first.map(move |vector| vect_line(side, *vector)))
            .chain(second.map(|vector| vect_line(2, *vector)))
    });
    let dead = plan.dead_cells().iter().map(|cell| dead_line(*cell));
    let cells = picture
        .iter()
        .enumerate()
        .filter_map(|(cell, value)| cell_line(cell, *value));
    let moves = records.iter().map(|record| move_line(*record));
    let lines = once(plat_line(plan, K::code()))
        .chain(elements)
        .chain(dead)
        .chain(cells)
        .chain(moves)
        .chain(once(last_line()));
    put_lines(lines, out)
}

// Writes a job, and answers the number of bytes; the bytes after them are left. Refuses, in this order and before the first byte, a
// picture that has not one value for each cell, a record whose move is not 1 to 4 or whose element is above 99, and an output that
// is too short.
pub fn write<K: WrittenKind>(
    plan: &Plan,
    picture: &[K],
    records: &[Record],
    out: &mut [u8],
) -> Result<usize, WriteFault>
    ensures answer { result ≡ write_answer K.Kind.values K.WrittenKind.written (job_of (design_of plan.now) picture.now records.now) (length out.old) }
    ensures bytes { out.new ≡ output_after result (encode K.Kind.values K.WrittenKind.written (job_of (design_of plan.now) picture.now records.now)) out.old }
    ensures back { OnOk result (ReadsBack K.Kind.values K.WrittenKind.written (job_of (design_of plan.now) picture.now records.now)) }
    ensures fixed { JobAndFile K.Kind.values K.WrittenKind.written }
{
    if picture.len() != plan.cells() {
        return Err(WriteFault::PictureLength);
    }
    if !all_fair(records) {
        return Err(WriteFault::Record);
    }
    if !has_room(plan, picture, records, out.len()) {
        return Err(WriteFault::Output);
    }
    Ok(put_job(plan, picture, records, out))
}
