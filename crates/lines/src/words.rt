ghost use Rattle.std.specs.Prelude.{◌≡◌};
ghost use Rattle.lines.specs.Words.{letters, word_of};

use crate::faults::LineFault;

// The words that a line may begin with.
#[derive(Clone, Copy, PartialEq, Debug)]
pub enum Word {
    Plat,
    Elem,
    Vect,
    Dead,
    Cell,
    Move,
    Last,
    Done,
    Area,
    Wide,
    Stop,
}

// The word of four letters.
impl TryFrom<&[u8; 4]> for Word {
    type Error = LineFault;

    ghost try_from_gives = { λ bs r. r ≡ word_of bs.now };

    fn try_from(letters: &[u8; 4]) -> Result<Word, LineFault> {
        match letters {
            b"PLAT" => Ok(Word::Plat),
            b"ELEM" => Ok(Word::Elem),
            b"VECT" => Ok(Word::Vect),
            b"DEAD" => Ok(Word::Dead),
            b"CELL" => Ok(Word::Cell),
            b"MOVE" => Ok(Word::Move),
            b"LAST" => Ok(Word::Last),
            b"DONE" => Ok(Word::Done),
            b"AREA" => Ok(Word::Area),
            b"WIDE" => Ok(Word::Wide),
            b"STOP" => Ok(Word::Stop),
            _ => Err(LineFault::Word),
        }
    }
}

impl Word {
    // The four letters: a method as plain as a `From` for an array would be.
    pub(crate) fn bytes(self) -> [u8; 4]
        ensures { result ≡ letters self }
    {
        match self {
            Word::Plat => *b"PLAT",
            Word::Elem => *b"ELEM",
            Word::Vect => *b"VECT",
            Word::Dead => *b"DEAD",
            Word::Cell => *b"CELL",
            Word::Move => *b"MOVE",
            Word::Last => *b"LAST",
            Word::Done => *b"DONE",
            Word::Area => *b"AREA",
            Word::Wide => *b"WIDE",
            Word::Stop => *b"STOP",
        }
    }
}
