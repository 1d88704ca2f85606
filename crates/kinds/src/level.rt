ghost use Rattle.std.specs.Prelude.{◌≡◌};
ghost use Rattle.kinds.specs.Levels.{level_values, written_level};
ghost use Rattle.kinds.specs.LevelLaws.{level_lawful, level_numbered};

use crate::kind::{Kind, WrittenKind};
use crate::values::Level;

// The level that has this number.
impl From<u8> for Level {
    ghost from_gives = { λ value x. x.value ≡ value };

    fn from(value: u8) -> Level {
        Level { value }
    }
}

impl Kind for Level {
    ghost values = { level_values };

    ghost lawful = { level_lawful };

    fn least() -> Level {
        Level::from(0)
    }

    fn greatest() -> Level {
        Level::from(255)
    }

    fn join(self, other: Level) -> Level {
        self.max(other)
    }

    fn meet(self, other: Level) -> Level {
        self.min(other)
    }

    fn lies_under(self, other: Level) -> bool {
        self <= other
    }
}

impl WrittenKind for Level {
    ghost written = { written_level };

    ghost numbered = { level_numbered };

    fn code() -> u32 {
        2
    }

    fn number(self) -> u32 {
        u32::from(self.value)
    }

    fn from_number(number: u32) -> Option<Level> {
        u8::try_from(number).ok().map(Level::from)
    }
}
