ghost use Rattle.std.specs.Prelude.{◌≡◌};
ghost use Rattle.layers.specs.Faults.{kill_fault_number};

// Why a cell is not made dead, with the number of the refusal: it does not exist, it is dead already, 64 cells are dead.
#[derive(Clone, Copy, PartialEq, Debug)]
pub enum KillFault {
    NoCell = 17,
    AlreadyDead = 18,
    TableFull = 20,
}

impl KillFault {
    // The number of the refusal.
    pub fn number(self) -> u8
        ensures { result ≡ kill_fault_number self }
    {
        self as u8
    }
}
