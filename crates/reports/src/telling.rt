// The lines of a report.
ghost use Rattle.std.specs.Prelude.{◌≡◌, ◌*◌, length};
ghost use Rattle.std.specs.List.{flat_map};
ghost use Rattle.lines.specs.Lines.{line_bytes};
ghost use Rattle.grids.specs.Cells.{cell_count};
ghost use Rattle.grids.specs.Extents.{extent_of};
ghost use Rattle.grids.specs.WideRows.{row_counts, widest_of};
ghost use Rattle.reports.specs.Reports.{done_line, area_line, wide_line, stop_line, run_lines};

use grids::{Row, Shape};
use jobs::Stop;
use kinds::{Kind, WrittenKind};
use lines::{Line, Word};
use morphology::{Record, area};
use std::iter::once;
use writers::{cell_line, counts, last_line, put_lines};

// A record's move, its element, the answer and the area.
#[inline(always)]
pub fn done_line(item: Record) -> Line
    ensures { result ≡ done_line item }
{
    let action = usize::from(item.action);
    let answer = usize::from(item.answer);
    counts(Word::Done, &[action, item.element, answer, item.area])
}

fn area_line(area: usize) -> Line
    ensures { result ≡ area_line area }
{
    counts(Word::Area, &[area])
}

fn wide_line(widest: Option<Row>) -> Line
    ensures { result ≡ wide_line widest }
{
    match widest {
        Some(row) => counts(Word::Wide, &[row.y, row.count]),
        None => counts(Word::Wide, &[]),
    }
}

pub(crate) fn stop_line(stop: Stop) -> Line
    ensures { result ≡ stop_line stop }
{
    let number = usize::from(stop.fault.number());
    let inner = usize::from(stop.fault.inner());
    counts(Word::Stop, &[number, stop.line, inner])
}

// The widest row of a picture with one value for each cell.
fn widest<K: Kind>(shape: Shape, picture: &[K]) -> Option<Row>
    requires { length picture.now ≡ cell_count (extent_of shape) }
    ensures { result ≡ widest_of (row_counts K.Kind.values (extent_of shape) picture.now) }
{
    // The one refusal is that of another length.
    shape.widest(picture).unwrap_or(None)
}

// Writes what is told of the records and the picture after a run.
pub(crate) fn put_run<K: WrittenKind>(
    shape: Shape,
    records: &[Record],
    picture: &[K],
    out: &mut [u8],
)
    requires cells { length picture.now ≡ cell_count (extent_of shape) }
    requires room { length out.old ≡ 29 * length (run_lines K.Kind.values K.WrittenKind.written (extent_of shape) records.now picture.now) }
    ensures { out.new ≡ flat_map line_bytes (run_lines K.Kind.values K.WrittenKind.written (extent_of shape) records.now picture.now) }
{
    // A chain with closures can be handed out by no function, so the cells stand here as in a job.
    let done = records.iter().map(|record| done_line(*record));
    let cells = picture
        .iter()
        .enumerate()
        .filter_map(|(cell, value)| cell_line(cell, *value));
    let lines = done
        .chain(cells)
        .chain(once(area_line(area(picture))))
        .chain(once(wide_line(widest(shape, picture))))
        .chain(once(last_line()));
    put_lines(lines, out);
}
