ghost use Rattle.std.specs.Prelude.{◌≡◌};
ghost use Rattle.std.specs.Option.{ok_or};
ghost use Rattle.morphology.specs.Histories.{move_number, move_of};
ghost use Rattle.morphology.specs.declared.faults.Refusal.TheVariants.{UnknownMove};

use crate::faults::Refusal;

// The morphological moves.
#[derive(Clone, Copy, PartialEq, Debug)]
pub enum Move {
    Dilate = 1,
    Erode = 2,
    Open = 3,
    Close = 4,
}

// One line of a list of moves: the number of the move, the element, and, once it was run, the answer (0 or the number of the
// refusal) and the area afterwards. The move stays a number, since a list of moves comes from outside and may hold any: `run` answers
// 26 to one that is no move's. The answer is the number that a report prints, and 0 as well in a record that was not run.
#[derive(Clone, Copy, Default, PartialEq, Debug)]
pub struct Record {
    pub action: u8,
    pub element: usize,
    pub answer: u8,
    pub area: usize,
}

impl Move {
    // The number of the move.
    pub fn number(self) -> u8
        ensures { result ≡ move_number self }
    {
        self as u8
    }
}

impl TryFrom<u8> for Move {
    type Error = Refusal;

    ghost try_from_gives = { λ n r. r ≡ ok_or (move_of n) UnknownMove };

    fn try_from(number: u8) -> Result<Move, Refusal> {
        match number {
            1 => Ok(Move::Dilate),
            2 => Ok(Move::Erode),
            3 => Ok(Move::Open),
            4 => Ok(Move::Close),
            _ => Err(Refusal::UnknownMove),
        }
    }
}
