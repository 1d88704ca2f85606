// How a block plate is made.
ghost use Rattle.std.specs.Prelude.{◌≡◌};
ghost use Rattle.plates.specs.declared.faults.BlockFault.TheVariants.{Memory};
ghost use Rattle.plates.specs.Links.{Made};

use crate::blocks::BlockPlate;
use crate::faults::BlockFault;
use arrayvec::ArrayVec;
use std::alloc::{AllocError, Global};

// Want of memory as a fault of this call. By hand, since the contract names the case that `?` makes.
impl From<AllocError> for BlockFault {
    ghost from_gives = { λ _ r. r ≡ Memory };

    fn from(_e: AllocError) -> BlockFault {
        BlockFault::Memory
    }
}

impl BlockPlate {
    // A plate of so many blocks without neighbours; refuses a count that is not 1 to 256, and fails for want of memory.
    pub fn new(heap: Global, count: usize) -> Result<BlockPlate, BlockFault>
        ensures { Made count result }
    {
        if !(1..=256).contains(&count) {
            return Err(BlockFault::Count);
        }
        Ok(BlockPlate {
            rows: vec![in heap; ArrayVec::new(); count]?,
        })
    }
}
