#![tactic(auto)]

mod extents;
mod places;
mod rows;
mod shapes;
mod stepping;
mod vectors;

pub use places::{Movers, Place};
pub use rows::{Row, RowFault};
pub use shapes::{Form, Shape};
pub use vectors::{Vector, coordinates_decide};
