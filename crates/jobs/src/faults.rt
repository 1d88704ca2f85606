ghost use Rattle.std.specs.Prelude.{◌≡◌};
ghost use Rattle.jobs.specs.Faults.{file_fault_number, inner_number, write_fault_number};
ghost use Rattle.jobs.specs.declared.faults.FileFault.TheVariants as fault;

use lines::LineFault;
use plans::PlanFault;

// Why a file is refused. Some cases hold the fault of a layer below, so the numbers are no discriminants.
#[derive(Clone, Copy, PartialEq, Debug)]
pub enum FileFault {
    // The picture that is to be filled has not one value for each cell.
    PictureLength,
    // The line is no line, or its word or a field is not one that may stand there.
    Line(LineFault),
    // A number that may not stand there.
    Number,
    // A cell not above the last one, or side 1 after side 2.
    Sequence,
    // The plan refuses the line.
    Plan(PlanFault),
    // More moves than records.
    Moves,
    // No byte is left, and there was no LAST.
    NoLast,
    // Bytes after LAST.
    AfterLast,
    // More bytes than the program takes.
    TooLong,
    // The file carries another kind.
    OtherKind,
}

// A fault and its line, counted from 1; 0 where no line is to blame.
#[derive(Clone, Copy, PartialEq, Debug)]
pub struct Stop {
    pub fault: FileFault,
    pub line: usize,
}

// Why a job is not written, each with the number of the refusal.
#[derive(Clone, Copy, PartialEq, Debug)]
pub enum WriteFault {
    PictureLength = 21,
    Output = 51,
    Record = 52,
}

impl FileFault {
    // The number of the refusal.
    pub fn number(self) -> u8
        ensures { result ≡ file_fault_number self }
    {
        match self {
            FileFault::PictureLength => 21,
            FileFault::Line(fault) => fault.number(),
            FileFault::Number => 44,
            FileFault::Sequence => 45,
            FileFault::Plan(_) => 46,
            FileFault::Moves => 47,
            FileFault::NoLast => 48,
            FileFault::AfterLast => 49,
            FileFault::TooLong => 53,
            FileFault::OtherKind => 54,
        }
    }

    // The number that the plan gave, 0 where it gave none: no `Option`, since a STOP line prints the 0.
    pub fn inner(self) -> u8
        ensures { result ≡ inner_number self }
    {
        match self {
            FileFault::Plan(fault) => fault.number(),
            _ => 0,
        }
    }
}

impl WriteFault {
    // The number of the refusal.
    pub fn number(self) -> u8
        ensures { result ≡ write_fault_number self }
    {
        self as u8
    }
}

// The conversions are written out, since clauses name the case that `?` gives.
impl From<LineFault> for FileFault {
    ghost from_gives = { λ f r. r ≡ fault.Line f };

    fn from(fault: LineFault) -> FileFault {
        FileFault::Line(fault)
    }
}

impl From<PlanFault> for FileFault {
    ghost from_gives = { λ f r. r ≡ fault.Plan f };

    fn from(fault: PlanFault) -> FileFault {
        FileFault::Plan(fault)
    }
}
