// The dead cells of a plate: how they are searched, and how a cell is killed.
ghost use Rattle.std.specs.Prelude.{◌≡◌, Some};
ghost use Rattle.layers.specs.Deaths.{dead_of, Covers};
ghost use Rattle.layers.specs.Layers.{living, kill_answer, killed};

use crate::dead::Dead;
use crate::faults::KillFault;
use plates::Plate;
use std::alloc::{AllocFailed, Global};

impl<P> Dead<P> {
    // The plate given, with no cell dead; gives it back where memory is wanting.
    pub fn new(heap: Global, lower: P) -> Result<Dead<P>, AllocFailed<P>>
        ensures { Covers lower result }
    {
        // A `match`, since `map` and `map_err` would each take `lower`.
        match Vec::with_capacity(heap, 64) {
            Ok(dead) => Ok(Dead { lower, dead }),
            Err(_) => Err(AllocFailed { value: lower }),
        }
    }

    // The dead cells in the order of their deaths.
    pub fn dead_cells(&self) -> &[usize]
        ensures { result.now ≡ dead_of self.now }
    {
        self.dead.as_slice()
    }

    // The cell itself, unless it is dead.
    pub(crate) fn alive(&self, cell: usize) -> Option<usize>
        ensures { result ≡ living (dead_of self.now) (Some cell) }
    {
        // One test a turn: `contains` makes four, and this is asked twice for each step of a move.
        let lives = !self.dead.iter().any(|dead| *dead == cell);
        lives.then_some(cell)
    }
}

impl<P: Plate> Dead<P> {
    // Whether a cell may be killed, and if not, why.
    fn may_kill(&self, cell: usize) -> Result<(), KillFault>
        ensures { result ≡ kill_answer (P.Plate.meaning self.now.lower).cells (dead_of self.now) cell }
    {
        if cell >= self.lower.cells() {
            return Err(KillFault::NoCell);
        }
        if self.dead.contains(&cell) {
            return Err(KillFault::AlreadyDead);
        }
        if self.dead.len() >= 64 {
            return Err(KillFault::TableFull);
        }
        Ok(())
    }

    // Makes a cell the last dead one; refuses, in this order and altering nothing, a cell that does not exist, one that is dead
    // already, and a 65th.
    #[tactic(auto, using(crate::proofs::Distinct::distinct_push))]
    pub fn kill(&mut self, cell: usize) -> Result<(), KillFault>
        ensures answer { result ≡ kill_answer (P.Plate.meaning self.old.lower).cells (dead_of self.old) cell }
        ensures after { dead_of self.new ≡ killed (P.Plate.meaning self.old.lower).cells (dead_of self.old) cell }
        ensures lower { self.new.lower ≡ self.old.lower }
    {
        self.may_kill(cell)?;
        self.dead.push_reserved(cell);
        Ok(())
    }
}
