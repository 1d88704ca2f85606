// A job is read, its moves are run, and what became of it is told. Shape, records and picture go side by side and with the same bounds: a
// struct of them would be made for one call.
ghost use Rattle.std.specs.Prelude.{◌≡◌, ◌*◌, ◌≤◌, length, IfOk};
ghost use Rattle.std.specs.List.{flat_map};
ghost use Rattle.lines.specs.Lines.{line_bytes};
ghost use Rattle.grids.specs.Cells.{cell_count};
ghost use Rattle.grids.specs.Extents.{extent_of};
ghost use Rattle.morphology.specs.Runs.{Ran};
ghost use Rattle.plans.specs.Drawings.{extent_in};
ghost use Rattle.plans.specs.Plans.{design_of, plate_of};
ghost use Rattle.reports.specs.Reports.{most_moves, run_lines, kind_told, Tells};

use crate::telling::put_run;
use grids::Shape;
use kinds::{Kind, WrittenKind};
use morphology::{Record, area, run};
use plans::Plan;
use readers::{NoJob, read};
use std::alloc::{AllocError, Global};

// How many lines are told of a run: one for each record, one for each cell that is not least, and three.
fn line_count<K: WrittenKind>(shape: Shape, records: &[Record], picture: &[K]) -> usize
    requires few { length records.now ≤ 2257 }
    requires small { length picture.now ≤ 24576 }
    ensures count { result ≡ length (run_lines K.Kind.values K.WrittenKind.written (extent_of shape) records.now picture.now) }
    ensures few { result ≤ 100000 }
{
    records.len() + area(picture) + 3
}

// The text on the records and the picture after a run.
fn run_text<K: WrittenKind>(
    heap: Global,
    shape: Shape,
    records: &[Record],
    picture: &[K],
) -> Result<Vec<u8>, AllocError>
    requires cells { length picture.now ≡ cell_count (extent_of shape) }
    requires few { length records.now ≤ 2257 }
    requires small { length picture.now ≤ 24576 }
    ensures { IfOk result (λ t. t.items ≡ flat_map line_bytes (run_lines K.Kind.values K.WrittenKind.written (extent_of shape) records.now picture.now)) }
{
    let mut text = vec![in heap; b' '; 29 * line_count(shape, records, picture)]?;
    put_run(shape, records, picture, text.as_mut_slice());
    Ok(text)
}

// Runs the records on the plate of a plan. What holds of every history stands on the contract of `run`.
fn run_moves<K: Kind>(plan: &Plan, picture: &mut [K], memory: &mut [K], records: &mut [Record])
    ensures { Ran K.Kind.values (plate_of (design_of plan.now)) records.old records.new picture.old picture.new memory.old memory.new }
{
    run(plan.plate(), picture, memory, records);
}

fn shape(plan: &Plan) -> Shape
    ensures { extent_of result ≡ extent_in (design_of plan.now).drawing }
{
    plan.plate().lower.shape()
}

// Reads a job into the picture and the records, runs its moves, and tells what became of it. The three buffers are slices of vectors that
// one caller makes: a struct of them would be built there and taken apart here.
fn run_job<K: WrittenKind>(
    heap: Global,
    bytes: &[u8],
    picture: &mut [K],
    memory: &mut [K],
    records: &mut [Record],
) -> Result<Vec<u8>, NoJob>
    requires memory { length memory.old ≡ length picture.old }
    requires records { length records.old ≡ most_moves }
    ensures { Tells (kind_told K.Kind.values K.WrittenKind.written bytes.now (length picture.old)) result }
{
    let (plan, moves) = read(heap, bytes, picture, records)?;
    let records = &mut records[..moves];
    run_moves(&plan, picture, memory, records);
    Ok(run_text(heap, shape(&plan), records, picture)?)
}

// The text on a file of that kind whose plan has so many cells.
pub(crate) fn work<K: WrittenKind>(
    heap: Global,
    bytes: &[u8],
    cells: usize,
) -> Result<Vec<u8>, NoJob>
    ensures { Tells (kind_told K.Kind.values K.WrittenKind.written bytes.now cells) result }
{
    let mut picture = vec![in heap; K::least(); cells]?;
    let mut memory = vec![in heap; K::least(); cells]?;
    let mut records = vec![in heap; Record::default(); 2257]?;
    run_job(
        heap,
        bytes,
        picture.as_mut_slice(),
        memory.as_mut_slice(),
        records.as_mut_slice(),
    )
}
