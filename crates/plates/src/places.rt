// A block plate as a plate.
ghost use Rattle.std.specs.Prelude.{◌≡◌};
ghost use Rattle.plates.specs.Blocks.{block_meaning, led_to};
ghost use Rattle.plates.specs.Links.{links_of};
ghost use Rattle.plates.specs.Soundness.{blocks_sound};

use crate::blocks::BlockPlate;
use crate::plate::Plate;

// Where a place leads a block that has these neighbours.
fn led(block: usize, neighbours: &[usize], place: usize) -> Option<usize>
    ensures { result ≡ led_to block neighbours.now place }
{
    if place == 0 {
        return Some(block);
    }
    neighbours.get(place - 1).copied()
}

// The blocks are the cells, and the one element leads a block to itself and to each of its neighbours.
impl Plate for BlockPlate {
    ghost meaning = { λ s. block_meaning (links_of s) };

    ghost sound = { blocks_sound };

    fn cells(&self) -> usize {
        self.rows.len()
    }

    fn elements(&self) -> usize {
        1
    }

    fn fan(&self, element: usize) -> usize {
        if element == 0 { 8 } else { 0 }
    }

    fn target(&self, element: usize, place: usize, cell: usize) -> Option<usize> {
        if element != 0 {
            return None;
        }
        led(cell, self.row(cell)?, place)
    }
}
