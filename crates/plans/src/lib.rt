#![tactic(auto)]

mod adding;
mod calls;
mod contents;
mod elements;
mod faults;
mod grid;
mod making;
mod modes;
mod near;
mod outline;
mod plan;
mod plating;
mod tables;

pub use faults::{NoPlan, PlanFault};
pub use grid::Grid;
pub use modes::{Mode, Side};
pub use outline::Outline;
pub use plan::Plan;
