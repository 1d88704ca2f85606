ghost use Rattle.std.specs.Prelude.{◌≡◌};
ghost use Rattle.kinds.specs.FrameSets.{frames_values, written_frames};
ghost use Rattle.kinds.specs.FrameLaws.{frames_lawful, frames_numbered};

use crate::kind::{Kind, WrittenKind};
use crate::values::Frames;

// The set of frames that has this number.
impl From<u16> for Frames {
    ghost from_gives = { λ bits x. x.bits ≡ bits };

    fn from(bits: u16) -> Frames {
        Frames { bits }
    }
}

impl Kind for Frames {
    ghost values = { frames_values };

    ghost lawful = { frames_lawful };

    fn least() -> Frames {
        Frames::from(0)
    }

    fn greatest() -> Frames {
        Frames::from(65535)
    }

    fn join(self, other: Frames) -> Frames {
        Frames::from(self.bits | other.bits)
    }

    fn meet(self, other: Frames) -> Frames {
        Frames::from(self.bits & other.bits)
    }

    fn lies_under(self, other: Frames) -> bool {
        self.bits & other.bits == self.bits
    }
}

impl WrittenKind for Frames {
    ghost written = { written_frames };

    ghost numbered = { frames_numbered };

    fn code() -> u32 {
        3
    }

    fn number(self) -> u32 {
        u32::from(self.bits)
    }

    // That of levels is the same line; a generic one would be longer than the two, for its bounds and clauses.
    fn from_number(number: u32) -> Option<Frames> {
        u16::try_from(number).ok().map(Frames::from)
    }
}
