ghost use Rattle.std.specs.Prelude.{◌≡◌};
ghost use Rattle.plates.specs.Meanings.{Meaning, Sound};

// A finite set of cells with structuring elements; each place of an element leads a cell to one cell or to none.
// Each question is answered by the plate's meaning, and alters nothing.
pub trait Plate {
    ghost meaning: { Self → Meaning };

    // How many cells there are, 1 to 24,576.
    fn cells(&self) -> usize
        ensures { result ≡ (meaning self.now).cells };

    // How many elements there are, 0 to 8.
    fn elements(&self) -> usize
        ensures { result ≡ (meaning self.now).elements };

    // How many places an element has, 0 to 64; 0 for an element that does not exist.
    fn fan(&self, element: usize) -> usize
        ensures { result ≡ (meaning self.now).fan element };

    // The cell that a place of an element leads a cell to, or none. The three numbers are no struct: it would be made for each question
    // and taken apart at once.
    fn target(&self, element: usize, place: usize, cell: usize) -> Option<usize>
        ensures { result ≡ (meaning self.now).target element place cell };

    ghost sound: { (p : Self) → Sound (meaning p) };
}
