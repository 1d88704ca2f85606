ghost use Rattle.std.specs.Prelude.{◌≤◌, vec_len, vec_capacity};
ghost use Rattle.plans.specs.Plans.{design_of, cells_in};

use jobs::{Order, Section};
use plans::Plan;

// What is kept between two lines of a file: the job so far, with room for every cell and every move that it can have. `room` is how many
// moves the caller takes, and no length of a buffer.
#[derive(Drop)]
pub struct Reader<K> {
    pub section: Section,
    pub plan: Plan,
    pub cells: Vec<K>,
    pub orders: Vec<Order>,
    pub room: usize,
    ghost cells_room: { cells_in (design_of plan) ≤ vec_capacity cells },
    ghost few: { vec_len orders ≤ room },
    ghost orders_room: { room ≤ vec_capacity orders },
}
