ghost use Rattle.std.specs.Prelude.{◌≡◌};
ghost use Rattle.morphology.specs.Histories.{refusal_number};

// Why a move is refused, with the number of the refusal: its number is no move's, the picture or the working memory has not one value for
// each cell, or the plate has no such element.
#[derive(Clone, Copy, PartialEq, Debug)]
pub enum Refusal {
    UnknownMove = 26,
    PictureLength = 21,
    MemoryLength = 22,
    NoElement = 23,
}

impl Refusal {
    // The number of the refusal.
    pub fn number(self) -> u8
        ensures { result ≡ refusal_number self }
    {
        self as u8
    }
}
