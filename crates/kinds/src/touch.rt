ghost use Rattle.kinds.specs.Touches.{touch_values, written_touch};
ghost use Rattle.std.proofs.Common.{rules};

use crate::kind::{Kind, WrittenKind};
use crate::values::Touch;

impl Kind for Touch {
    ghost values = { touch_values };

    ghost lawful = { Prim.search rules };

    fn least() -> Touch {
        Self::No
    }

    fn greatest() -> Touch {
        Self::Yes
    }

    // The same lines as levels have: `Kind` gives no default, since a kind need not be ordered in one row.
    fn join(self, other: Touch) -> Touch {
        self.max(other)
    }

    fn meet(self, other: Touch) -> Touch {
        self.min(other)
    }

    fn lies_under(self, other: Touch) -> bool {
        // No `<=`: the derived order costs half as much again where an area is counted.
        matches!((self, other), (Touch::No, _) | (_, Touch::Yes))
    }
}

impl WrittenKind for Touch {
    ghost written = { written_touch };

    ghost numbered = { Prim.search rules };

    fn code() -> u32 {
        1
    }

    fn number(self) -> u32 {
        self as u32
    }

    fn from_number(number: u32) -> Option<Touch> {
        match number {
            0 => Some(Touch::No),
            1 => Some(Touch::Yes),
            _ => None,
        }
    }
}
