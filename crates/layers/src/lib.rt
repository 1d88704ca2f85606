#![tactic(auto)]

mod dead;
mod deaths;
mod faults;
mod living;
mod reflected;

pub use dead::Dead;
pub use faults::KillFault;
pub use reflected::Reflected;
