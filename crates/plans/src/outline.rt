// What a plan is drawn on.
ghost use Rattle.std.specs.Prelude.{◌≡◌};
ghost use Rattle.plans.specs.Modes.{form_of};

use crate::faults::PlanFault;
use crate::modes::Mode;
use grids::Shape;

// The mode of a plan, and a shape that the mode has.
#[derive(Clone, Copy)]
pub struct Outline {
    pub(crate) mode: Mode,
    pub(crate) shape: Shape,
    ghost form: { shape.form ≡ form_of mode },
}

impl Outline {
    ghost use Rattle.std.specs.Result.{result_map_both};
    ghost use Rattle.grids.specs.Extents.{extent_of};
    ghost use Rattle.plans.specs.Drawings.{extent_in};
    ghost use Rattle.plans.specs.Fitting.{bare, drawn};
    ghost use Rattle.plans.specs.Modes.{mode_of};

    // The mode with that number and its shape of that size. Refuses a mode that is not 1 to 4, then a width or height that is not 1 to
    // 64: it is given numbers, since a fitter or a file gives them, and each has a refusal of its own.
    pub fn new(mode: usize, width: usize, height: usize) -> Result<Outline, PlanFault>
        ensures { result_map_both bare (λ f. f) result ≡ drawn (mode_of mode) width height }
    {
        let mode = Mode::try_from(mode)?;
        let shape = Shape::new(mode.form(), width, height).ok_or(PlanFault::Size)?;
        Ok(Outline { mode, shape })
    }

    pub fn mode(self) -> Mode
        ensures { result ≡ (bare self).mode }
    {
        self.mode
    }

    pub fn shape(self) -> Shape
        ensures { extent_of result ≡ extent_in (bare self) }
    {
        self.shape
    }
}
