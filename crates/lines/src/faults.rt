ghost use Rattle.std.specs.Prelude.{◌≡◌};
ghost use Rattle.lines.specs.Faults.{line_fault_number};

// Why a line is refused, with the number of the refusal: it has not its 28 columns and a line feed, its word is none of the words, or a
// field does not hold what is due.
#[derive(Clone, Copy, PartialEq, Debug)]
pub enum LineFault {
    Frame = 41,
    Word = 42,
    Field = 43,
}

impl LineFault {
    // The number of the refusal.
    pub fn number(self) -> u8
        ensures { result ≡ line_fault_number self }
    {
        self as u8
    }
}
