// The lines of a job, word by word.
ghost use Rattle.std.specs.Prelude.{◌≡◌};
ghost use Rattle.plans.specs.Plans.{design_of};
ghost use Rattle.jobs.specs.Entries.{plat_line, elem_line, vect_line, dead_line, cell_entry, move_line, last_line};
ghost use Rattle.writers.specs.Writing.{asked, counts};

use grids::Vector;
use kinds::WrittenKind;
use lines::{Line, Number, Word};
use morphology::Record;
use plans::Plan;

// A word and natural numbers in the first fields; the others are blank.
#[inline(always)]
pub fn counts(word: Word, numbers: &[usize]) -> Line
    ensures { result ≡ counts word numbers.now }
{
    let field = |i: usize| numbers.get(i).map(|n| Number::from(*n));
    Line {
        word,
        one: field(0),
        two: field(1),
        three: field(2),
        four: field(3),
    }
}

pub(crate) fn plat_line(plan: &Plan, code: u32) -> Line
    ensures { result ≡ plat_line code (design_of plan.now).drawing }
{
    counts(
        Word::Plat,
        &[
            plan.mode().number(),
            plan.width(),
            plan.height(),
            code as usize,
        ],
    )
}

pub(crate) fn elem_line(element: usize) -> Line
    ensures { result ≡ elem_line element }
{
    counts(Word::Elem, &[element])
}

// The side is the number that a file has for it.
pub fn vect_line(side: usize, vector: Vector) -> Line
    ensures { result ≡ vect_line side vector }
{
    Line {
        word: Word::Vect,
        one: Some(side.into()),
        two: Some(vector.a.into()),
        three: Some(vector.b.into()),
        four: Some(vector.c.into()),
    }
}

pub fn dead_line(cell: usize) -> Line
    ensures { result ≡ dead_line cell }
{
    counts(Word::Dead, &[cell])
}

// Only a cell that is not least has a line.
#[inline(always)]
pub fn cell_line<K: WrittenKind>(cell: usize, value: K) -> Option<Line>
    ensures { result ≡ cell_entry K.Kind.values K.WrittenKind.written cell value }
{
    if value.is_not_least() {
        Some(counts(Word::Cell, &[cell, value.number() as usize]))
    } else {
        None
    }
}

// What a record was answered is not written.
pub fn move_line(item: Record) -> Line
    ensures { result ≡ move_line (asked item) }
{
    counts(Word::Move, &[usize::from(item.action), item.element])
}

// The last line of a job and of a report.
pub fn last_line() -> Line
    ensures { result ≡ last_line }
{
    counts(Word::Last, &[])
}
