// Line 1 of a file.
ghost use Rattle.std.specs.Prelude.{◌≡◌, ◌≤◌, length, IfOk, OnOk};
ghost use Rattle.jobs.specs.Heads.{head_in, head_of, measured};
ghost use Rattle.readers.specs.Reading.{Counted};

use crate::faults::first;
use jobs::{CellKind, FileFault, Head, Stop, natural};
use lines::{Line, LineFault, Word, read_fields, read_word};
use plans::Plan;

// What a line holds whose word is PLAT: no number lies below 0, then the code of the kind, then mode and size as the plan would judge
// them.
fn head(line: Line) -> Result<Head, FileFault>
    ensures is { result ≡ head_in line }
    ensures cells { IfOk result Counted }
{
    let [mode, width, height, code] = line.numbers::<4>()?;
    let mode = natural(mode)?;
    let width = natural(width)?;
    let height = natural(height)?;
    let kind = CellKind::try_from(natural(code)?)?;
    let cells = Plan::cells_for(mode, width, height)?;
    Ok(Head {
        mode,
        width,
        height,
        kind,
        cells,
    })
}

// What line 1 holds: its word must be PLAT.
fn first_line(bytes: &[u8]) -> Result<Head, FileFault>
    ensures is { result ≡ head_of bytes.now }
    ensures cells { IfOk result Counted }
    ensures long { OnOk result (29 ≤ length bytes.now) }
{
    if bytes.is_empty() {
        return Err(FileFault::NoLast);
    }
    let word = read_word(bytes)?;
    match word {
        Word::Plat => head(read_fields(word, bytes)?),
        _ => Err(FileFault::Line(LineFault::Word)),
    }
}

// What line 1 of a file holds, and how many cells its plan has. Refuses as line 1 would be refused; the lines after it are not looked at.
pub fn measure(bytes: &[u8]) -> Result<Head, Stop>
    ensures is { result ≡ measured bytes.now }
    ensures cells { IfOk result Counted }
    ensures long { OnOk result (29 ≤ length bytes.now) }
{
    first_line(bytes).map_err(first)
}
