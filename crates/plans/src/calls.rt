// The fitter's calls.
ghost use Rattle.std.specs.Prelude.{◌≡◌};
ghost use Rattle.layers.specs.Deaths.{dead_of};
ghost use Rattle.layers.specs.Layers.{without};
ghost use Rattle.plans.specs.Drawings.{grid};
ghost use Rattle.plans.specs.Fitting.{element_answer, vector_answer};
ghost use Rattle.plans.specs.Grids.{drawing_of};
ghost use Rattle.plans.specs.LawfulDesigns.{LawfulDesign};
ghost use Rattle.plans.specs.Plans.{design_of, plate_of, Made, element_added, vector_added, dead_answer, dead_added};
ghost use Rattle.plans.specs.Vectors.{vector};

use crate::faults::{NoPlan, PlanFault};
use crate::grid::Grid;
use crate::outline::Outline;
use crate::plan::Plan;
use grids::Vector;
use layers::Dead;
use std::alloc::Global;

impl Plan {
    // A plan without elements and dead cells. Refuses a mode that is not 1 to 4, then a width or height that is not 1 to 64; fails for
    // want of memory.
    pub fn new(heap: Global, mode: usize, width: usize, height: usize) -> Result<Plan, NoPlan>
        ensures { Made mode width height result }
    {
        let outline = Outline::new(mode, width, height)?;
        let grid = Grid::new(heap, outline)?;
        let plate = Dead::new(heap, grid).map_err(|_| NoPlan::Memory)?;
        Ok(Plan { plate })
    }

    // One element more, without vectors; refused where eight exist.
    pub fn add_element(&mut self) -> Result<(), PlanFault>
        ensures answer { result ≡ element_answer (design_of self.old).drawing }
        ensures after { design_of self.new ≡ element_added (design_of self.old) }
    {
        self.plate.lower.add_element()
    }

    // One vector more at the end of the list of one side of an element. Refuses, in this order, an element that does not exist, a side
    // that is wrong for the mode, a coordinate that is not -63 to 63, a sum that the mode does not allow, a vector that the list has,
    // and a list of 32: it is given numbers, as a fitter enters them, since each has a refusal of its own.
    pub fn add_vector(
        &mut self,
        element: usize,
        side: usize,
        a: i32,
        b: i32,
        c: i32,
    ) -> Result<(), PlanFault>
        ensures answer { result ≡ vector_answer (design_of self.old).drawing element side (vector a b c) }
        ensures after { design_of self.new ≡ vector_added (design_of self.old) element side (vector a b c) }
    {
        self.plate
            .lower
            .add_vector(element, side, Vector { a, b, c })
    }

    // Makes a cell dead. Refuses, in this order, a cell that does not exist, one that is dead already, and a full table of 64.
    #[tactic(auto, using(layers::proofs::Killing::killed_below))]
    pub fn kill(&mut self, cell: usize) -> Result<(), PlanFault>
        ensures answer { result ≡ dead_answer (design_of self.old) cell }
        ensures after { design_of self.new ≡ dead_added (design_of self.old) cell }
    {
        self.plate.kill(cell)?;
        Ok(())
    }

    // The plate of the plan: its grid without the steps that start or end on a dead cell.
    pub fn plate(&self) -> &Dead<Grid>
        ensures plate { result.now ≡ self.now.plate }
        ensures meaning { without (dead_of result.now) (grid (drawing_of result.now.lower)) ≡ plate_of (design_of self.now) }
        ensures lawful { LawfulDesign (design_of self.now) }
    {
        &self.plate
    }

    // The plate itself, for layers of one's own; the plan ends.
    pub fn into_plate(self) -> Dead<Grid>
        ensures { result ≡ self.plate }
    {
        self.plate
    }
}
