// What one line does to a reader.
ghost use Rattle.std.specs.Prelude.{◌≡◌, ◌-◌, ◌<◌, length, Some};
ghost use Rattle.plans.specs.Plans.{design_of, cells_in};
ghost use Rattle.jobs.specs.Steps.{late, valued};
ghost use Rattle.drafts.specs.Drafts.{draft_of, Stepped, Takes};
ghost use Rattle.lines.specs.Lines.{Fits};
ghost use Rattle.lines.specs.declared.words.Word.TheVariants as word;

use crate::drafts::Reader;
use jobs::{FileFault, Order, Section, first_side, natural, whole};
use kinds::{Kind, WrittenKind};
use lines::Line;
use plans::{Plan, Side};

// Whether a vector of that side, by the number that the line has, comes too late for the newest element: side 1 after side 2.
fn is_late(plan: &Plan, element: usize, side: usize) -> bool
    requires { element ≡ length (design_of plan.now).drawing.elements - 1 }
    ensures { result ≡ late (design_of plan.now).drawing side }
{
    side == first_side(plan.mode()) && !plan.vectors(element, Side::Second).is_empty()
}

impl<K: WrittenKind> Reader<K> {
    // ELEM: the next number.
    pub(crate) fn element(&mut self, line: Line) -> Result<(), FileFault>
        ensures { Takes K.Kind.values K.WrittenKind.written word.Elem line self.old self.new result }
    {
        let [number] = line.numbers::<1>()?;
        let number = natural(number)?;
        if number != self.plan.elements() {
            return Err(FileFault::Number);
        }
        self.plan.add_element()?;
        self.section = Section::Elements;
        Ok(())
    }

    // DEAD: one cell more.
    pub(crate) fn dead(&mut self, line: Line) -> Result<(), FileFault>
        ensures { Takes K.Kind.values K.WrittenKind.written word.Dead line self.old self.new result }
    {
        let [cell] = line.numbers::<1>()?;
        let cell = natural(cell)?;
        self.plan.kill(cell)?;
        self.section = Section::Dead;
        Ok(())
    }

    // VECT: a vector for the newest element.
    pub(crate) fn vector(&mut self, line: Line) -> Result<(), FileFault>
        requires { Fits line }
        ensures { Takes K.Kind.values K.WrittenKind.written word.Vect line self.old self.new result }
    {
        let [side, a, b, c] = line.numbers::<4>()?;
        let side = natural(side)?;
        // Without an element this is 0, and the plan refuses it.
        let element = self.plan.elements().saturating_sub(1);
        if is_late(&self.plan, element, side) {
            return Err(FileFault::Sequence);
        }
        self.plan
            .add_vector(element, side, whole(a), whole(b), whole(c))?;
        self.section = Section::Elements;
        Ok(())
    }

    // Puts a value at a cell after those so far; the cells between are least.
    fn put(&mut self, cell: usize, value: K) -> Result<(), FileFault>
        requires within { cell < cells_in (design_of self.old.plan) }
        ensures { Stepped self.old self.new result (valued K.Kind.values K.WrittenKind.written (draft_of self.old).job cell (Some value)) }
    {
        if cell < self.cells.len() {
            return Err(FileFault::Sequence);
        }
        // It cannot fail, since there is room; the library has no such call without a result.
        let _ = self.cells.resize(cell, K::least());
        self.cells.push_reserved(value);
        self.section = Section::Cells;
        Ok(())
    }

    // CELL: a cell above the last one, with a value that is not least.
    pub(crate) fn cell(&mut self, line: Line) -> Result<(), FileFault>
        requires { Fits line }
        ensures { Takes K.Kind.values K.WrittenKind.written word.Cell line self.old self.new result }
    {
        let [cell, number] = line.numbers::<2>()?;
        let cell = natural(cell)?;
        let number = natural(number)?;
        if !(cell < self.plan.cells() && 0 < number) {
            return Err(FileFault::Number);
        }
        let value = K::from_number(number as u32).ok_or(FileFault::Number)?;
        self.put(cell, value)
    }

    // MOVE: one that a file can carry, while there are records for it.
    pub(crate) fn movement(&mut self, line: Line) -> Result<(), FileFault>
        ensures { Takes K.Kind.values K.WrittenKind.written word.Move line self.old self.new result }
    {
        let [action, element] = line.numbers::<2>()?;
        let action = natural(action)?;
        let element = natural(element)?;
        if !((1..=4).contains(&action) && element <= 99) {
            return Err(FileFault::Number);
        }
        if self.orders.len() >= self.room {
            return Err(FileFault::Moves);
        }
        self.orders.push_reserved(Order {
            action: action as u8,
            element,
        });
        self.section = Section::Moves;
        Ok(())
    }

    // LAST.
    pub(crate) fn last(&mut self, line: Line) -> Result<(), FileFault>
        ensures { Takes K.Kind.values K.WrittenKind.written word.Last line self.old self.new result }
    {
        line.numbers::<0>()?;
        self.section = Section::Last;
        Ok(())
    }
}
