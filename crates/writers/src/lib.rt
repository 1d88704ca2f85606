#![tactic(auto)]

mod counting;
mod putting;
mod rows;
mod writing;

pub use putting::put_lines;
pub use rows::{cell_line, counts, dead_line, last_line, move_line, vect_line};
pub use writing::write;
