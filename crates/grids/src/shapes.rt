ghost use Rattle.std.specs.Prelude.{◌≤◌};

// Which sums a grid plate holds: flat the sums 0 and 1, stack the sums -2 to 3.
#[derive(Clone, Copy, PartialEq, Debug)]
pub enum Form {
    Flat,
    Stack,
}

// The size of a grid plate: its form, and 1 to 64 columns and rows.
#[derive(Clone, Copy, PartialEq, Debug)]
pub struct Shape {
    pub form: Form,
    pub width: usize,
    pub height: usize,
    ghost wide: { 1 ≤ width },
    ghost narrow: { width ≤ 64 },
    ghost high: { 1 ≤ height },
    ghost low: { height ≤ 64 },
}
