// How grids are made and drawn on.
ghost use Rattle.std.specs.Prelude.{◌≡◌, IfOk};
ghost use Rattle.plans.specs.Fitting.{bare, element_answer, with_element, vector_answer, with_vector};
ghost use Rattle.plans.specs.Grids.{drawing_of};

use crate::faults::PlanFault;
use crate::grid::Grid;
use crate::near::NearVector;
use crate::outline::Outline;
use crate::tables::Table;
use grids::Vector;
use std::alloc::{AllocError, Global};

impl Grid {
    // A grid without elements.
    pub(crate) fn new(heap: Global, outline: Outline) -> Result<Grid, AllocError>
        ensures { IfOk result (λ g. drawing_of g ≡ bare outline) }
    {
        Ok(Grid {
            outline,
            table: Table::new(heap)?,
        })
    }

    #[tactic(auto, using(crate::proofs::Fairness::fair_push))]
    pub(crate) fn add_element(&mut self) -> Result<(), PlanFault>
        ensures answer { result ≡ element_answer (drawing_of self.old) }
        ensures after { drawing_of self.new ≡ with_element (drawing_of self.old) }
    {
        if self.table.count() >= 8 {
            return Err(PlanFault::Elements);
        }
        self.table.add_element();
        Ok(())
    }

    // Refuses as `Plan::add_vector` says.
    pub(crate) fn add_vector(
        &mut self,
        element: usize,
        side: usize,
        v: Vector,
    ) -> Result<(), PlanFault>
        ensures answer { result ≡ vector_answer (drawing_of self.old) element side v }
        ensures after { drawing_of self.new ≡ with_vector (drawing_of self.old) element side v }
    {
        if element >= self.table.count() {
            return Err(PlanFault::NoElement);
        }
        let mode = self.outline.mode;
        let side = mode.side(side).ok_or(PlanFault::Side)?;
        let near = NearVector::try_from(v)?;
        if !mode.allows(side, v.sum()) {
            return Err(PlanFault::Sum);
        }
        self.table.add_vector(element, side, near)
    }
}
