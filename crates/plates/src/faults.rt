ghost use Rattle.std.specs.Prelude.{◌≡◌};
ghost use Rattle.plates.specs.Faults.{block_fault_number, link_fault_number};

// Why no block plate is made: a count that is not 1 to 256, or want of memory.
#[derive(Clone, Copy, PartialEq, Debug)]
pub enum BlockFault {
    Count,
    Memory,
}

// Why two blocks are not linked, with the number of the refusal: one of them does not exist, they are the same block or linked
// already, one of them has seven neighbours.
#[derive(Clone, Copy, PartialEq, Debug)]
pub enum LinkFault {
    NoBlock = 17,
    Linked = 24,
    Full = 25,
}

impl BlockFault {
    // The number of the refusal; want of memory has none.
    pub fn number(self) -> Option<u8>
        ensures { result ≡ block_fault_number self }
    {
        match self {
            BlockFault::Count => Some(11),
            BlockFault::Memory => None,
        }
    }
}

impl LinkFault {
    // The number of the refusal.
    pub fn number(self) -> u8
        ensures { result ≡ link_fault_number self }
    {
        self as u8
    }
}
