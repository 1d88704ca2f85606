// The whole program as a function from bytes to bytes. The heap and the bytes go side by side, and are no one thing.
ghost use Rattle.std.specs.Prelude.{◌≡◌, [], ◌∷◌, length, is_ok, IfOk, nat_le};
ghost use Rattle.std.specs.List.{flat_map};
ghost use Rattle.lines.specs.Lines.{then, line_bytes};
ghost use Rattle.jobs.specs.Heads.{measured};
ghost use Rattle.reports.specs.Reports.{most_bytes, stop_line, head_told, told, reported, Tells};

use crate::telling::stop_line;
use crate::texts::Report;
use crate::working::work;
use jobs::{CellKind, FileFault, Head, Stop};
use kinds::{Frames, Level, Touch};
use readers::{NoJob, measure};
use std::alloc::{AllocError, Global};
use std::iter::once;
use writers::put_lines;

// By the kind that line 1 names.
fn tell_kind(heap: Global, bytes: &[u8], head: Head) -> Result<Vec<u8>, NoJob>
    ensures { Tells (head_told bytes.now head) result }
{
    match head.kind {
        CellKind::Touch => work::<Touch>(heap, bytes, head.cells),
        CellKind::Level => work::<Level>(heap, bytes, head.cells),
        CellKind::Frames => work::<Frames>(heap, bytes, head.cells),
    }
}

// By line 1.
fn tell_file(heap: Global, bytes: &[u8]) -> Result<Vec<u8>, NoJob>
    ensures { Tells (then (measured bytes.now) (head_told bytes.now)) result }
{
    let head = measure(bytes)?;
    tell_kind(heap, bytes, head)
}

// Whether the program takes so many bytes.
fn is_short(bytes: &[u8]) -> bool
    ensures { result ≡ nat_le (length bytes.now) most_bytes }
{
    bytes.len() <= 65536
}

// Refuses too many bytes before all else.
fn tell(heap: Global, bytes: &[u8]) -> Result<Vec<u8>, NoJob>
    ensures { Tells (told bytes.now) result }
{
    if !is_short(bytes) {
        return Err(NoJob::Refused(Stop {
            fault: FileFault::TooLong,
            line: 0,
        }));
    }
    tell_file(heap, bytes)
}

// One line that says why there is no report.
fn stop_text(heap: Global, stop: Stop) -> Result<Vec<u8>, AllocError>
    ensures { IfOk result (λ t. t.items ≡ flat_map line_bytes (stop_line stop ∷ [])) }
{
    let mut text = vec![in heap; b' '; 29]?;
    put_lines(once(stop_line(stop)), text.as_mut_slice());
    Ok(text)
}

// The report on a file. It fails only for want of memory.
pub fn report(heap: Global, bytes: &[u8]) -> Result<Report, AllocError>
    ensures { IfOk result (λ t. (t.text.items ≡ reported bytes.now) × (t.accepted ≡ is_ok (told bytes.now))) }
{
    match tell(heap, bytes) {
        Ok(text) => Ok(Report {
            text,
            accepted: true,
        }),
        Err(NoJob::Refused(stop)) => Ok(Report {
            text: stop_text(heap, stop)?,
            accepted: false,
        }),
        Err(NoJob::Memory) => Err(AllocError),
    }
}
