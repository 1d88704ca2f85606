ghost use Rattle.std.specs.Prelude.{◌≡◌};
ghost use Rattle.jobs.specs.Heads.{kind_code, kind_of};

use crate::faults::FileFault;

// The kind of the cells of a file, each with the code that line 1 has for it.
#[derive(Clone, Copy, PartialEq, Debug)]
pub enum CellKind {
    Touch = 1,
    Level = 2,
    Frames = 3,
}

// What line 1 of a file holds, and how many cells its plan has. Mode and size are the numbers of the line: with an outline for them, or
// with the count as a fact of the type, each definition of line 1 would have to build such a value with its proof.
#[derive(Clone, Copy, PartialEq, Debug)]
pub struct Head {
    pub mode: usize,
    pub width: usize,
    pub height: usize,
    pub kind: CellKind,
    pub cells: usize,
}

impl CellKind {
    // The code of the kind.
    pub fn code(self) -> u32
        ensures { result ≡ kind_code self }
    {
        self as u32
    }
}

impl TryFrom<usize> for CellKind {
    type Error = FileFault;

    ghost try_from_gives = { λ n r. r ≡ kind_of n };

    fn try_from(code: usize) -> Result<CellKind, FileFault> {
        match code {
            1 => Ok(CellKind::Touch),
            2 => Ok(CellKind::Level),
            3 => Ok(CellKind::Frames),
            _ => Err(FileFault::Number),
        }
    }
}
