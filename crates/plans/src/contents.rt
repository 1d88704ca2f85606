// What a plan holds.
ghost use Rattle.std.specs.Prelude.{◌≡◌, length, slice_index_or};
ghost use Rattle.plans.specs.Drawings.{blank};
ghost use Rattle.plans.specs.Fitting.{list_on};
ghost use Rattle.plans.specs.Plans.{design_of, cells_in, cells_planned};

use crate::faults::PlanFault;
use crate::modes::{Mode, Side};
use crate::outline::Outline;
use crate::plan::Plan;
use grids::Vector;

impl Plan {
    // How many cells a plan of that mode and size has; refused as `new` refuses. No memory is needed.
    pub fn cells_for(mode: usize, width: usize, height: usize) -> Result<usize, PlanFault>
        ensures { result ≡ cells_planned mode width height }
    {
        let outline = Outline::new(mode, width, height)?;
        Ok(outline.shape().cells())
    }

    pub fn mode(&self) -> Mode
        ensures { result ≡ (design_of self.now).drawing.mode }
    {
        self.plate.lower.outline.mode
    }

    pub fn width(&self) -> usize
        ensures { result ≡ (design_of self.now).drawing.width }
    {
        self.plate.lower.outline.shape.width
    }

    pub fn height(&self) -> usize
        ensures { result ≡ (design_of self.now).drawing.height }
    {
        self.plate.lower.outline.shape.height
    }

    // How many cells there are, the dead ones among them.
    pub fn cells(&self) -> usize
        ensures { result ≡ cells_in (design_of self.now) }
    {
        self.plate.lower.shape().cells()
    }

    // How many elements there are.
    pub fn elements(&self) -> usize
        ensures { result ≡ length (design_of self.now).drawing.elements }
    {
        self.plate.lower.table.count()
    }

    // The vectors of one side of an element in order of entry; none where there is no such element.
    pub fn vectors(&self, element: usize, side: Side) -> &[Vector]
        ensures { result.now ≡ list_on side (slice_index_or (design_of self.now).drawing.elements element blank) }
    {
        self.plate.lower.table.vectors(element, side)
    }

    // The dead cells in the order of their deaths.
    pub fn dead_cells(&self) -> &[usize]
        ensures { result.now ≡ (design_of self.now).dead }
    {
        self.plate.dead_cells()
    }
}
