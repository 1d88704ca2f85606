ghost use Rattle.std.specs.Prelude.{◌^◌, ◌<◌};

// Whether rubber touches a cell: no lies under yes.
#[derive(Clone, Copy, PartialEq, Eq, PartialOrd, Ord, Debug)]
pub enum Touch {
    No = 0,
    Yes = 1,
}

// How hard rubber presses on a cell, 0 to 255; less lies under more.
#[derive(Clone, Copy, PartialEq, Eq, PartialOrd, Ord, Debug)]
pub struct Level {
    pub value: u8,
    ghost fits: { value < 2 ^ 8 },
}

// In which of 16 frames rubber touches a cell, one bit for each. No order is derived: one set lies under another that has all its
// frames, whichever number is less.
#[derive(Clone, Copy, PartialEq, Debug)]
pub struct Frames {
    pub bits: u16,
    ghost fits: { bits < 2 ^ 16 },
}
