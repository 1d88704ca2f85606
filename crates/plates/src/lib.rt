#![tactic(auto)]

mod blocks;
mod faults;
mod links;
mod makes;
mod places;
mod plate;
mod two_way;

pub use blocks::BlockPlate;
pub use faults::{BlockFault, LinkFault};
pub use plate::Plate;
pub use two_way::TwoWayPlate;
